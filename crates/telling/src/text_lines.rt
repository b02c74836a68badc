// The lines, each put at the end of a text.
ghost use Rattle.std.specs.Prelude.{◌≡◌, [], ◌∷◌, ◌++◌, map};
ghost use Rattle.sets.specs.Sets.{members};
ghost use Rattle.sets.specs.Stored.{width, number};
ghost use Rattle.cases.specs.Positions.{persons};
ghost use Rattle.telling.specs.Lines.{decimal, spaced};
ghost use Rattle.telling.specs.Held.{put};
ghost use Rattle.telling.specs.Telling.{listed, trials, refused, case_line, asked_line, plan_line, verdict_line, refused_line};

use crate::Text;
use cases::{Counts, Position};
use planner::{PlanAnswer, VerdictAnswer};
use refusals::Refusal;
use sets::People;

// The counts: people, steps, roles, tables, rules.
pub fn put_case(text: Text, n: Counts) -> Text
    ensures { result ≡ put text (case_line n) }
{
    let entries = text
        .put(b"case")
        .put_number(n.people as u64)
        .put_number(n.steps as u64);
    let rest = entries
        .put_number(n.roles as u64)
        .put_number(n.tables as u64);
    rest.put_number(n.rules as u64).put_byte(b'\n')
}

// t and the limit.
pub fn put_asked(text: Text, t: u32, limit: u32) -> Text
    ensures { result ≡ put text (asked_line t limit) }
{
    let absent = text.put(b"absent").put_number(t as u64);
    absent
        .put(b" limit")
        .put_number(limit as u64)
        .put_byte(b'\n')
}

// What the plan call said.
pub fn put_plan(text: Text, answer: Result<PlanAnswer, Refusal>) -> Text
    ensures { result ≡ put text (plan_line answer) }
{
    let named = text.put(b"plan");
    match answer {
        Err(refusal) => end_refused(named.put(b" refused"), refusal),
        Ok(PlanAnswer::Limit(trials)) => end_trials(named.put(b" limit"), trials),
        Ok(PlanAnswer::No(trials)) => end_trials(named.put(b" no"), trials),
        Ok(PlanAnswer::Yes(plan, trials)) => {
            end_trials(put_persons(named.put(b" yes"), plan), trials)
        }
    }
}

// What a verdict said, after the question's name.
pub fn put_verdict(text: Text, name: &[u8], answer: Result<VerdictAnswer, Refusal>) -> Text
    ensures { result ≡ put text (verdict_line name.now answer) }
{
    let named = text.put(name);
    match answer {
        Err(refusal) => end_refused(named.put(b" refused"), refusal),
        Ok(VerdictAnswer::Limit(trials)) => end_trials(named.put(b" limit"), trials),
        Ok(VerdictAnswer::Yes(trials)) => end_trials(named.put(b" yes"), trials),
        Ok(VerdictAnswer::No(shown, trials)) => {
            end_trials(put_set(named.put(b" no"), shown), trials)
        }
    }
}

// A refusal: its number and its place.
pub fn put_refusal(text: Text, refusal: Refusal) -> Text
    ensures { result ≡ put text (refused_line refusal) }
{
    end_refused(text.put(b"refused"), refusal)
}

// The end of a line that says "refused".
fn end_refused(text: Text, refusal: Refusal) -> Text
    ensures { result ≡ put text (spaced (refused refusal) ++ (10 ∷ [])) }
{
    let numbered = text.put_number(refusal.number as u64).put(b" at");
    numbered.put_number(refusal.place as u64).put_byte(b'\n')
}

// The end of a line that shows trials.
fn end_trials(text: Text, n: u32) -> Text
    ensures { result ≡ put text (spaced (trials n) ++ (10 ∷ [])) }
{
    text.put(b" trials").put_number(n as u64).put_byte(b'\n')
}

// The persons of a position by step, or `none`.
fn put_persons(text: Text, p: Position) -> Text
    ensures { result ≡ put text (spaced (listed (persons p))) }
{
    if p.len == 0 {
        return text.put(b" none");
    }
    each_person(text, p)
}

fn each_person(mut text: Text, p: Position) -> Text
    ensures { result ≡ put text (spaced (map decimal (persons p))) }
{
    for i in 0..p.len {
        text.add_number(p.person(i).0 as u64);
    }
    text
}

// The members of a set, ascending, or `none`.
fn put_set(text: Text, set: People) -> Text
    ensures { result ≡ put text (spaced (listed (members width (number set)))) }
{
    match set.lowest() {
        None => text.put(b" none"),
        Some(_) => each_member(text, set),
    }
}

fn each_member(mut text: Text, set: People) -> Text
    ensures { result ≡ put text (spaced (map decimal (members width (number set)))) }
{
    for v in 0..People::WIDTH {
        if set.has(v) {
            text.add_number(v as u64);
        }
    }
    text
}
