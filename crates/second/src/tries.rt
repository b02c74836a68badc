// People tried at a node.
use second_files::{has, minus, plus, set_of};
use second_positions::{Cell, Listed};

// What trying people at a node comes to: the trials, and those who leave the desk a win.
#[derive(Clone, Copy)]
pub struct Tried {
    pub trials: usize,
    pub good: usize,
    pub found: usize,
}

impl Tried {
    // Does somebody leave the desk a win?
    pub fn cell(self) -> Cell {
        Cell::new(0 < self.found, self.trials)
    }
}

// More people than there are.
pub const EVERYBODY: usize = 100;

// People tried at a node in ascending number, the absent left out, until `enough` of them leave the desk a win. What a kid comes to is asked for.
pub fn try_people<F: Fn(usize) -> Cell>(
    listed: &Listed,
    node: usize,
    absent: usize,
    enough: usize,
    cell_of: F,
) -> Tried
    requires { F.IsAlwaysCallable cell_of }
{
    let present = without(listed.may_do(listed.placed(node).length), absent);
    let mut tried = Tried {
        trials: 0,
        good: 0,
        found: 0,
    };
    for v in 0..listed.people {
        if enough <= tried.found {
            break;
        }
        if has(present, v) {
            tried.trials = plus(tried.trials, 1);
            if let Some(kid) = listed.kid(node, v) {
                let cell = cell_of(kid);
                tried.trials = plus(tried.trials, cell.trials());
                if cell.won {
                    tried.good |= set_of(v);
                    tried.found = plus(tried.found, 1);
                }
            }
        }
    }
    tried
}

// Those who are not in the other set.
pub fn without(people: usize, absent: usize) -> usize {
    minus(people, people & absent)
}

// The lowest member of a set.
pub fn member(set: usize) -> Option<usize> {
    (0..64).find(|v| has(set, *v))
}
