// Faults put into a file, one for each reason to turn a file away. Where the file has no entry for a fault, or the fault makes no difference, it may stay
// good. Nothing is promised here but safety.
#![tactic(auto)]

use second_draws::Chance;
use second_files::{File, Reason, minus, person_at, plus, set_of, times};

// The reasons for which a file is turned away.
pub const FAULTS: [Reason; 11] = [
    Reason::Header,
    Reason::Edition,
    Reason::Spare,
    Reason::Limit,
    Reason::Offset,
    Reason::Length,
    Reason::Person,
    Reason::Step,
    Reason::Before,
    Reason::Row,
    Reason::Rule,
];

// Puts the fault in.
pub fn damage(chance: &mut Chance, file: &mut File, fault: Reason) {
    match fault {
        Reason::Header => file.length = chance.below(24),
        Reason::Edition => file.put_word(0, chance.below(4)),
        Reason::Spare => file.put_word(22, chance.from_to(1, 65535)),
        Reason::Limit => change_count(chance, file),
        Reason::Offset => {
            let at = plus(12, times(2, chance.below(5)));
            file.put_word(at, near(chance, file.word(at)));
        }
        Reason::Length => file.length = near(chance, file.length),
        Reason::Person => {
            if let Some(u) = chance.one_of(file.people()) {
                add_role(chance, file, person_at(u));
            }
        }
        Reason::Step => {
            if let Some(s) = chance.one_of(file.steps()) {
                add_role(chance, file, file.step_at(s));
            }
        }
        Reason::Before => {
            if let Some(s) = chance.one_of(file.steps()) {
                change_step(chance, file, file.step_at(s));
            }
        }
        Reason::Row => {
            if let Some(i) = chance.one_of(file.rows()) {
                let at = file.row_at(i);
                let person = past(chance, file.people(), 32);
                file.put_long(at, file.long(at) | set_of(person));
            }
        }
        Reason::Rule => {
            if let Some(r) = chance.one_of(file.rules()) {
                change_rule(chance, file, file.rule_at(r));
            }
        }
        // No file is turned away for these.
        Reason::Absentees | Reason::Position | Reason::Absence | Reason::Room => {}
    }
}

// A count above its limit, most often by one.
fn change_count(chance: &mut Chance, file: &mut File) {
    let (at, most) = match chance.below(5) {
        0 => (2, 32),
        1 => (4, 8),
        2 => (6, 16),
        3 => (8, 6),
        _ => (10, 32),
    };
    let above = if chance.below(3) == 0 {
        chance.below(65000)
    } else {
        0
    };
    file.put_word(at, plus(most + 1, above));
}

// Another number nearby.
fn near(chance: &mut Chance, x: usize) -> usize {
    let by = chance.from_to(1, 4);
    if chance.below(2) == 0 {
        plus(x, by)
    } else {
        minus(x, by)
    }
}

// A number from n up to, not including, the width; the width itself where there is none, which the entry has no room for.
fn past(chance: &mut Chance, n: usize, width: usize) -> usize {
    plus(n, chance.below(minus(width, n)))
}

// A role that there is not.
fn add_role(chance: &mut Chance, file: &mut File, at: usize) {
    let role = past(chance, file.roles(), 16);
    file.put_word(at, file.word(at) | set_of(role));
}

fn change_step(chance: &mut Chance, file: &mut File, at: usize) {
    if chance.below(2) == 0 {
        file.put_byte(plus(at, 3), chance.from_to(1, 255));
    } else {
        let before = file.byte(plus(at, 2)) | set_of(chance.below(8));
        file.put_byte(plus(at, 2), before);
    }
}

// The form, the relation, the step or the set X.
fn change_rule(chance: &mut Chance, file: &mut File, at: usize) {
    match chance.below(6) {
        0 => file.put_byte(at, 0),
        1 => file.put_byte(at, chance.from_to(4, 255)),
        2 => {
            let relation = plus(plus(2, file.tables()), chance.below(3));
            file.put_byte(plus(at, 1), relation);
        }
        3 => {
            let step = plus(file.steps(), chance.below(3));
            file.put_byte(plus(at, 2), step);
        }
        4 => file.put_byte(plus(at, 3), chance.below(256)),
        _ => file.put_byte(plus(at, 3), 0),
    }
}
