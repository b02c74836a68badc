// The persons in the first steps.
use second_files::{down, has, plus, times, up};

// A position, valid or not: how many steps are filled, and their persons as one number, eight bits for each step, so that the persons of some steps
// are compared at once.
#[derive(Clone, Copy)]
pub struct Placed {
    pub who: usize,
    pub length: usize,
}

// The person of a step.
pub fn person_of(who: usize, step: usize) -> usize {
    down(who, times(8, step)) % 256
}

// The persons with one more, for a step that none of them has.
pub fn with_person(who: usize, step: usize, person: usize) -> usize {
    who | up(person, times(8, step))
}

// The persons of these steps alone.
pub fn only(who: usize, steps: usize) -> usize {
    let mut kept = 0;
    for step in 0..8 {
        if has(steps, step) {
            kept = with_person(kept, step, person_of(who, step));
        }
    }
    kept
}

impl Placed {
    // Nobody yet.
    pub const START: Placed = Placed { who: 0, length: 0 };

    pub fn person(self, step: usize) -> usize {
        person_of(self.who, step)
    }

    // With a person in the next step.
    pub fn with(self, person: usize) -> Placed {
        Placed {
            who: with_person(self.who, self.length, person),
            length: plus(self.length, 1),
        }
    }

    // The first steps alone. Those behind them stay in the number, where nothing asks for them.
    pub fn up_to(self, length: usize) -> Placed {
        Placed {
            who: self.who,
            length: length,
        }
    }
}
