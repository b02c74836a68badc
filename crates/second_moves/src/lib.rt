// Where a game stands, and what is drawn for questions and games: moves, positions, absences and limits. Nothing is promised here but safety.
#![tactic(auto)]

use second::{Answer, MOST_TRIALS, advice};
use second_draws::Chance;
use second_files::{File, has, minus, plus, set_of};
use second_positions::{Listed, Placed, Slate};

// Where a game stands: at a valid position, and its node.
#[derive(Clone, Copy)]
pub struct At {
    pub node: usize,
    pub placed: Placed,
}

impl At {
    pub const START: At = At {
        node: 0,
        placed: Placed::START,
    };

    // The position with v in the next step, if it is valid.
    pub fn moved(self, listed: &Listed, v: usize) -> Option<At> {
        let node = listed.kid(self.node, v)?;
        Some(At {
            node: node,
            placed: self.placed.with(v),
        })
    }
}

// Somebody present who can be placed at a node: the first from a start by chance on, going round.
pub fn somebody(chance: &mut Chance, listed: &Listed, node: usize, absent: usize) -> Option<usize> {
    let n = listed.people;
    let from = chance.below(n);
    for i in 0..n {
        let v = plus(from, i) % n;
        if !has(absent, v) && listed.kid(node, v).is_some() {
            return Some(v);
        }
    }
    None
}

// A valid position, as long as it can get by moves by chance, and no longer than drawn.
fn wander(chance: &mut Chance, listed: &Listed) -> At {
    let most = chance.from_to(0, listed.steps);
    let mut at = At::START;
    for _ in 0..most {
        let Some(v) = somebody(chance, listed, at.node, 0) else {
            return at;
        };
        at = at.moved(listed, v).unwrap_or(at);
    }
    at
}

// A position to ask about. Most often a valid one, else one with a person by chance, or persons by chance.
pub fn draw_position(chance: &mut Chance, listed: &Listed, file: &File) -> Placed {
    let placed = wander(chance, listed).placed;
    match chance.below(8) {
        0 => placed.with(chance.from_to(0, file.people())),
        1 => Placed {
            who: chance.below(4294967296) & 117901063,
            length: chance.below(10),
        },
        2 => Placed {
            who: placed.who | chance.below(1024),
            length: placed.length,
        },
        _ => placed,
    }
}

// A set of people: with at most t of them, or any, or with somebody unknown.
pub fn draw_absent(chance: &mut Chance, n: usize, t: usize) -> usize {
    match chance.below(8) {
        0 => chance.some_of(n, 4),
        1 => chance.some_of(plus(n, 1) % 33, 3),
        _ => few_of(chance, n, t),
    }
}

// A set of at most t people.
pub fn few_of(chance: &mut Chance, n: usize, t: usize) -> usize {
    let mut set = 0;
    for _ in 0..t {
        set |= set_of(chance.below(n));
    }
    if n == 0 { 0 } else { set }
}

// The t people whom the desk would name first.
pub fn lowest_good(slate: &Slate, node: usize, t: usize) -> usize {
    let mut set = 0;
    for _ in 0..t {
        if let Answer::Yes { shown, .. } = advice(slate, node, set) {
            set |= set_of(shown);
        }
    }
    set
}

// A limit for an answer: the largest, the exact count, or one below; and never a long walk.
pub fn limit_for(chance: &mut Chance, ours: Answer) -> usize {
    if let Answer::Refused(_) = ours {
        return chance.below(3);
    }
    if ours.is_long() {
        return MOST_TRIALS;
    }
    match chance.below(4) {
        0 => minus(ours.trials(), 1),
        1 => ours.trials(),
        _ => 4294967295,
    }
}
