// Cases in memory with an entry changed.
use cases::{Case, Counts, Rule, Step, StepEntry};
use sets::People;

// Another count of people.
pub fn with_people(case: Case, people: u16) -> Case {
    let counts = Counts {
        people,
        ..case.counts
    };
    Case { counts, ..case }
}

// Person u holds these roles.
pub fn with_person(case: Case, u: usize, roles: u16) -> Case {
    let mut next = case;
    put(&mut next.people, u, roles);
    next
}

// Step s names these roles, and nothing precedes it.
pub fn with_step(case: Case, s: usize, roles: u16) -> Case {
    changed_step(case, s, roles, 0)
}

// Step s names no role, nothing precedes it, and its spare byte is 1.
pub fn with_spare(case: Case, s: usize) -> Case {
    changed_step(case, s, 0, 1)
}

fn changed_step(case: Case, s: usize, roles: u16, spare: u8) -> Case {
    let step = StepEntry {
        roles,
        before: 0,
        spare,
    };
    let mut next = case;
    put(&mut next.steps, s, step);
    next
}

// Row i names person 31.
pub fn with_row(case: Case, i: usize) -> Case {
    let mut next = case;
    put(&mut next.rows, i, People::none().with(31));
    next
}

// Rule i is as the campfire's, but for its form.
pub fn with_form(case: Case, i: usize, form: u8) -> Case {
    changed_rule(case, i, form, 1)
}

// Rule 0 is as the campfire's, but for its relation.
pub fn with_rule(case: Case, relation: u8) -> Case {
    changed_rule(case, 0, 1, relation)
}

fn changed_rule(case: Case, i: usize, form: u8, relation: u8) -> Case {
    let step = Step(1);
    let rule = Rule {
        form,
        relation,
        step,
        group: 1,
    };
    let mut next = case;
    put(&mut next.rules, i, rule);
    next
}

// Entry i, where there is one, becomes this one.
fn put<T: Copy>(entries: &mut [T], i: usize, entry: T) {
    if let Some(old) = entries.get_mut(i) {
        *old = entry;
    }
}
