// Judging a case in memory: 4, then 7 to 11. It knows the case, its refusals and where its entries would stand in a file. It reads no file and
// knows nothing of boards or searches.
//
// Each number from 7 to 11 is one search, over one array and the counts: it ends at its count, and nothing in it takes a case.
#![tactic(auto)]

ghost use Rattle.std.specs.Prelude.{◌≡◌, [], ◌∷◌, ℕ, Bool, ◌+◌, ◌*◌, ◌^◌, ◌<◌};
ghost use Rattle.cases.specs.Case.{most_steps};
ghost use Rattle.refusals.specs.Refusals.{Good, entry_check, judged_by};
ghost use Rattle.refusals.specs.CaseChecks.{too_many, Limited, right_size, bad_rule, entry_checks, judged_case};
ghost use Rattle.judging.specs.Parts.{bad_step, people_check, roles_check, order_check, rows_check, rules_check};

use cases::{Case, Counts, Rule, StepEntry};
use layout::{rows, rules_at, steps_at, tables_at};
use refusals::{Refusal, refused_if};
use sets::{People, past, size};

// A case that is judged good. Who has one need not judge it again.
#[derive(Clone, Copy)]
pub struct GoodCase {
    pub case: Case,
    ghost good: { judged_case case ≡ Good },
}

// Judges a case by 4 and 7 to 11: good, or the lowest number that it meets, at the place that the earliest such entry has in the case's file.
pub fn judge_case(c: Case) -> Result<(), Refusal>
    ensures { result ≡ judged_case c }
{
    refused_if(too_many(c.counts), 4, 0)?;
    judge_entries(&c)
}

// Is a count above its limit?
pub fn too_many(n: Counts) -> bool
    ensures { result ≡ too_many n }
{
    Case::PEOPLE < n.people as usize
        || Case::STEPS < n.steps as usize
        || Case::ROLES < n.roles as usize
        || Case::TABLES < n.tables as usize
        || Case::RULES < n.rules as usize
}

// Judges the entries by 7 to 11, the lowest number first. That the counts are within their limits stands in clauses, here and below: a type of such counts
// would stand beside the counts of the case, and clauses would have to say that the two are the same.
fn judge_entries(c: &Case) -> Result<(), Refusal>
    requires { Limited c.now.counts }
    ensures { result ≡ judged_by (entry_checks c.now) }
{
    let n = c.counts;
    judge_people(&c.people, n)?;
    judge_roles(&c.steps, n)?;
    judge_order(&c.steps, n)?;
    judge_rows(&c.rows, n)?;
    judge_rules(&c.rules, n)
}

// 7: the earliest person who holds a role not below the role count.
fn judge_people(people: &[u16; Case::PEOPLE], n: Counts) -> Result<(), Refusal>
    requires { Limited n }
    ensures { result ≡ judged_by (people_check n people.now ∷ []) }
{
    refuse_first(7, n.people as usize, 24, 2, |u| past(people[u], n.roles))
}

// 8: the earliest step that names such a role.
fn judge_roles(steps: &[StepEntry; Case::STEPS], n: Counts) -> Result<(), Refusal>
    requires { Limited n }
    ensures { result ≡ judged_by (roles_check n steps.now ∷ []) }
{
    refuse_first(
        8,
        n.steps as usize,
        steps_at(n),
        4,
        |s| past(steps[s].roles, n.roles),
    )
}

// 9: the earliest step that a step not below it must precede, or whose spare byte is not 0.
fn judge_order(steps: &[StepEntry; Case::STEPS], n: Counts) -> Result<(), Refusal>
    requires { Limited n }
    ensures { result ≡ judged_by (order_check n steps.now ∷ []) }
{
    refuse_first(
        9,
        n.steps as usize,
        steps_at(n),
        4,
        |s| bad_step(steps[s], s),
    )
}

// 10: the earliest table row that names a person not below the people count.
fn judge_rows(tables: &[People; Case::ROWS], n: Counts) -> Result<(), Refusal>
    requires { Limited n }
    ensures { result ≡ judged_by (rows_check n tables.now ∷ []) }
{
    refuse_first(10, rows(n), tables_at(n), 4, |i| tables[i].past(n.people))
}

// 11: the earliest rule with a form, a relation, a step or a set X that it cannot have.
fn judge_rules(rules: &[Rule; Case::RULES], n: Counts) -> Result<(), Refusal>
    requires { Limited n }
    ensures { result ≡ judged_by (rules_check n rules.now ∷ []) }
{
    refuse_first(
        11,
        n.rules as usize,
        rules_at(n),
        4,
        |i| bad_rule(n, rules[i]),
    )
}

// Refuses the first of so many entries that fails a test, under the number that the definitions give it. The first entry starts at this place, and each has so
// many bytes.
fn refuse_first<F: Fn(usize) -> bool>(
    number: u8,
    count: usize,
    start: usize,
    bytes: usize,
    fails: F,
) -> Result<(), Refusal>
    requires callable { (i : ℕ) → i < count → F.pre fails i }
    requires fits { start + bytes * count < 2 ^ 64 }
    ensures { (test : ℕ → Bool) → ((i : ℕ) (b : Bool) → i < count → F.post fails i b → b ≡ test i)
        → result ≡ judged_by (entry_check number (λ i. start + bytes * i) test count ∷ []) }
{
    for i in 0..count {
        if fails(i) {
            return Err(Refusal {
                number,
                place: start + bytes * i,
            });
        }
    }
    Ok(())
}

// Is a step that must precede step s not below s, or the spare byte not 0?
fn bad_step(step: StepEntry, s: usize) -> bool
    requires { s < most_steps }
    ensures { result ≡ bad_step s step }
{
    past(step.before as u16, s as u16) || step.spare != 0
}

// Is a rule's form not 1 to 3, or does its relation or a step not exist, or has X the wrong size?
fn bad_rule(n: Counts, rule: Rule) -> bool
    ensures { result ≡ bad_rule n rule }
{
    rule.form < 1
        || 3 < rule.form
        || n.tables as usize + 2 <= rule.relation as usize
        || n.steps <= rule.step.0 as u16
        || past(rule.group as u16, n.steps)
        || !right_size(rule.form, rule.group)
}

// Form 1 has exactly one step in X, forms 2 and 3 have at least one.
fn right_size(form: u8, group: u8) -> bool
    ensures { result ≡ right_size form group }
{
    let many = size(group as u16);
    if form == 1 { many == 1 } else { 1 <= many }
}
