// What the scope says of a position, asked of the file's bytes anew each time.
use crate::placed::Placed;
use second_files::{File, down, has, minus, person_at, plus, set_of, times, up};

// Does the person exist, and does the person hold a role that may do the step?
pub fn may(file: &File, person: usize, step: usize) -> bool {
    person < file.people()
        && step < file.steps()
        && file.word(person_at(person)) & file.word(file.step_at(step)) != 0
}

// Does every rule hold, of those all of whose steps are filled?
pub fn keeps(file: &File, placed: Placed) -> bool {
    (0..file.rules()).all(|r| {
        let at = file.rule_at(r);
        !is_filled(file, at, placed.length) || holds(file, at, placed)
    })
}

// The steps among the first `length` that a rule names which is not filled yet.
pub fn asked_later(file: &File, length: usize) -> usize {
    let mut named = 0;
    for r in 0..file.rules() {
        let at = file.rule_at(r);
        if !is_filled(file, at, length) {
            named |= set_of(file.byte(plus(at, 2))) | file.byte(plus(at, 3));
        }
    }
    minus(named, up(down(named, length), length))
}

// Are the rule's step and all of its set X among the first `length` steps?
fn is_filled(file: &File, at: usize, length: usize) -> bool {
    file.byte(plus(at, 2)) < length && down(file.byte(plus(at, 3)), length) == 0
}

// Does a rule hold? The file's form 2 asks for some member of X, the others for every one.
fn holds(file: &File, at: usize, placed: Placed) -> bool {
    let relation = file.byte(plus(at, 1));
    let person = placed.person(file.byte(plus(at, 2)));
    let group = file.byte(plus(at, 3));
    let mut members = (0..8).filter(|x| has(group, *x));
    if file.byte(at) == 2 {
        members.any(|x| related(file, relation, person, placed.person(x)))
    } else {
        members.all(|x| related(file, relation, person, placed.person(x)))
    }
}

// Is the pair in the relation? The file's numbers, asked for here alone: 0 is the same person, 1 different persons, and a table from 2 on.
fn related(file: &File, relation: usize, u: usize, v: usize) -> bool {
    match relation {
        0 => u == v,
        1 => u != v,
        _ => {
            let row = plus(times(minus(relation, 2), file.people()), u);
            has(file.long(file.row_at(row)), v)
        }
    }
}
