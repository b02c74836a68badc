// A case and a position in memory, made from a file's bytes and from plain numbers by code of its own, for the second search.
#![tactic(auto)]

use cases::{Case, Counts, Person, Position, Rule, Step, StepEntry};
use second_draws::Chance;
use second_files::{File, person_at, to_8};
use second_positions::Placed;
use sets::People;

pub fn to_16(x: usize) -> u16 {
    (x % 65536) as u16
}

pub fn to_32(x: usize) -> u32 {
    (x % 4294967296) as u32
}

// The case that a file's bytes write. Above the counts stand numbers below `junk`, by chance: 1 leaves zeros there.
pub fn case_of(chance: &mut Chance, file: &File, junk: usize) -> Case {
    let mut case = Case::empty();
    case.counts = counts_of(file);
    let n = file.people();
    fill(
        chance,
        junk,
        &mut case.people,
        n,
        |u| file.word(person_at(u)),
        to_16,
    );
    let n = file.steps();
    fill(
        chance,
        junk,
        &mut case.steps,
        n,
        |s| file.long(file.step_at(s)),
        step_of,
    );
    let n = file.rows();
    fill(
        chance,
        junk,
        &mut case.rows,
        n,
        |i| file.long(file.row_at(i)),
        row_of,
    );
    let n = file.rules();
    fill(
        chance,
        junk,
        &mut case.rules,
        n,
        |r| file.long(file.rule_at(r)),
        rule_of,
    );
    case
}

fn counts_of(file: &File) -> Counts {
    Counts {
        people: to_16(file.people()),
        steps: to_16(file.steps()),
        roles: to_16(file.roles()),
        tables: to_16(file.tables()),
        rules: to_16(file.rules()),
    }
}

// Fills entries one by one: the first n from what the file has there, the others from a number below `junk`, by chance.
fn fill<T: Copy, R: Fn(usize) -> usize, M: Fn(usize) -> T>(
    chance: &mut Chance,
    junk: usize,
    entries: &mut [T],
    n: usize,
    read: R,
    made: M,
)
    requires read { R.IsAlwaysCallable read }
    requires made { M.IsAlwaysCallable made }
{
    for (i, entry) in entries.iter_mut().enumerate() {
        let x = if i < n { read(i) } else { chance.below(junk) };
        *entry = made(x);
    }
}

// A step's entry from its four bytes as one number.
fn step_of(x: usize) -> StepEntry {
    StepEntry {
        roles: to_16(x),
        before: to_8(x / 65536),
        spare: to_8(x / 16777216),
    }
}

fn row_of(x: usize) -> People {
    People::from_word(to_32(x))
}

// A rule from its four bytes as one number.
fn rule_of(x: usize) -> Rule {
    Rule {
        form: to_8(x),
        relation: to_8(x / 256),
        step: Step(to_8(x / 65536)),
        group: to_8(x / 16777216),
    }
}

// The position with the persons of all steps, also behind its length.
pub fn position_of(placed: Placed) -> Position {
    Position {
        who: placed.who.to_le_bytes().map(|person| Person(person)),
        len: to_8(placed.length),
    }
}
