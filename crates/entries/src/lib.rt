// Reading the entries of the parts of a file into the arrays of a case. Past the end of a part they are zero, and reading stops there. It judges nothing.
#![tactic(auto)]

ghost use Rattle.std.specs.Prelude.{◌≡◌, ℕ, List, ◌<◌, ◌≤◌, ◌*◌, length, replicate};
ghost use Rattle.sets.specs.Stored.{no_people};
ghost use Rattle.cases.specs.Case.{most_people, most_tables, zero_step, zero_rule};
ghost use Rattle.refusals.specs.Offsets.{person_bytes, step_bytes, row_bytes, rule_bytes, total_of};
ghost use Rattle.words.specs.Part.{table};
ghost use Rattle.layout.specs.Layout.{person_in, step_in, row_in, rule_in, case_at};
ghost use Rattle.layout.proofs.Past.{person_past, step_past, row_past, rule_past, two_few, four_few};

use cases::{Case, Counts, Rule, Step, StepEntry};
use layout::{rules_at, steps_at, tables_at, total};
use sets::People;
use words::{byte_at, long_at, word_at};

// The case that a file holds by these counts.
pub fn case_at(file: &[u8], n: Counts) -> Case
    requires { total_of n ≤ length file.now }
    ensures { result ≡ case_at file.now n }
{
    let mut case = Case::empty();
    case.counts = n;
    read_entries(&file[24..steps_at(n)], &mut case.people);
    read_entries(&file[steps_at(n)..tables_at(n)], &mut case.steps);
    read_entries(&file[tables_at(n)..rules_at(n)], &mut case.rows);
    read_entries(&file[rules_at(n)..total(n)], &mut case.rules);
    case
}

// Reads the entries of a part to the front of an array of zeros.
fn read_entries<E: Entry>(part: &[u8], entries: &mut [E])
    requires few { length entries.old ≤ most_tables * most_people }
    requires zeros { entries.old ≡ replicate (length entries.old) E.zero }
    ensures { entries.new ≡ table (E.entry_in part.now) (length entries.old) }
{
    for (i, entry) in entries.iter_mut().enumerate() {
        if part.len() <= E::BYTES * i {
            break;
        }
        *entry = E::read(part, i);
    }
}

// An entry of a part, as the part's bytes write it.
trait Entry: Copy {
    // How many bytes an entry has.
    const BYTES: usize;

    ghost BYTES: { ℕ };

    ghost zero: { Self };

    ghost entry_in: { List ℕ → ℕ → Self };

    // Entry i of a part.
    fn read(part: &[u8], i: usize) -> Self
        requires { i < most_tables * most_people }
        ensures { result ≡ entry_in part.now i };

    ghost few: { BYTES ≤ 4 };

    // Past the end of a part every entry is zero.
    ghost past: { (part : List ℕ) (i : ℕ) → length part ≤ BYTES * i → entry_in part i ≡ zero };
}

// A person: the set of roles held.
impl Entry for u16 {
    const BYTES: usize = 2;

    ghost BYTES = { person_bytes };

    ghost zero = { 0 };

    ghost entry_in = { person_in };

    ghost few = { two_few };

    ghost past = { person_past };

    fn read(part: &[u8], i: usize) -> u16 {
        word_at(part, 2 * i)
    }
}

impl Entry for StepEntry {
    const BYTES: usize = 4;

    ghost BYTES = { step_bytes };

    ghost zero = { zero_step };

    ghost entry_in = { step_in };

    ghost few = { four_few };

    ghost past = { step_past };

    fn read(part: &[u8], i: usize) -> StepEntry {
        StepEntry {
            roles: word_at(part, 4 * i),
            before: byte_at(part, 4 * i + 2),
            spare: byte_at(part, 4 * i + 3),
        }
    }
}

// A table row: bit v for person v.
impl Entry for People {
    const BYTES: usize = 4;

    ghost BYTES = { row_bytes };

    ghost zero = { no_people };

    ghost entry_in = { row_in };

    ghost few = { four_few };

    ghost past = { row_past };

    fn read(part: &[u8], i: usize) -> People {
        People::from_word(long_at(part, 4 * i))
    }
}

impl Entry for Rule {
    const BYTES: usize = 4;

    ghost BYTES = { rule_bytes };

    ghost zero = { zero_rule };

    ghost entry_in = { rule_in };

    ghost few = { four_few };

    ghost past = { rule_past };

    fn read(part: &[u8], i: usize) -> Rule {
        let step = Step(byte_at(part, 4 * i + 2));
        Rule {
            form: byte_at(part, 4 * i),
            relation: byte_at(part, 4 * i + 1),
            step,
            group: byte_at(part, 4 * i + 3),
        }
    }
}
