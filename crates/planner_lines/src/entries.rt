// The entries of a case that a line names.
use crate::numbers::{Numbers, Written};
use cases::{Case, Rule, Step, StepEntry};
use sets::People;

// What entries a line names.
#[derive(Clone, Copy, Debug, PartialEq, Eq)]
pub enum Part {
    People,
    Steps,
    Rows,
    Rules,
}

impl Part {
    // The case with the entries of this part that numbers name, the first of them at the first number.
    pub fn filled(self, mut case: Case, numbers: Numbers<'_>) -> Case {
        match self {
            Part::People => fill(&mut case.people, numbers),
            Part::Steps => fill(&mut case.steps, numbers),
            Part::Rows => fill(&mut case.rows, numbers),
            Part::Rules => fill(&mut case.rules, numbers),
        }
        case
    }
}

// Entries from the first number on, as many as there are numbers and room for.
fn fill<E: Written>(entries: &mut [E], mut numbers: Numbers<'_>) {
    let at: u8 = numbers.get();
    for entry in entries.iter_mut().skip(usize::from(at)) {
        let Some(next) = E::read(&mut numbers) else {
            return;
        };
        *entry = next;
    }
}

impl Written for StepEntry {
    fn read(numbers: &mut Numbers<'_>) -> Option<StepEntry> {
        Some(StepEntry {
            roles: u16::read(numbers)?,
            before: numbers.get(),
            spare: numbers.get(),
        })
    }
}

impl Written for People {
    fn read(numbers: &mut Numbers<'_>) -> Option<People> {
        numbers.next().map(People::from_word)
    }
}

impl Written for Rule {
    fn read(numbers: &mut Numbers<'_>) -> Option<Rule> {
        Some(Rule {
            form: u8::read(numbers)?,
            relation: numbers.get(),
            step: Step(numbers.get()),
            group: numbers.get(),
        })
    }
}
