// What is drawn: the shapes of small, middle and large cases, each with a number of absentees. Nothing is promised here but safety.
#![tactic(auto)]

use second_draws::{Chance, Shape};
use second_files::minus;

// A shape, and t.
#[derive(Clone, Copy)]
pub struct Drawn {
    pub shape: Shape,
    pub t: usize,
}

// Rules of every kind; nothing else is said yet.
const PLAIN: Shape = Shape {
    people: 0,
    steps: 0,
    roles: 0,
    tables: 0,
    rules: 0,
    odds: 4,
    pairs: 5,
    reach: 8,
    mild: false,
};

// A mild one.
const MILD: Shape = Shape {
    people: 0,
    steps: 0,
    roles: 0,
    tables: 0,
    rules: 0,
    odds: 4,
    pairs: 4,
    reach: 4,
    mild: true,
};

// Up to 5 people and 4 steps, for files that are damaged.
pub fn tiny(chance: &mut Chance) -> Shape {
    Shape {
        people: chance.below(6),
        steps: chance.below(5),
        roles: chance.below(5),
        tables: chance.below(4),
        rules: chance.below(5),
        ..PLAIN
    }
}

// Up to 5 people and 4 steps, with the counts that are 0 among them, and now and then any t that is not refused.
pub fn small(chance: &mut Chance) -> Drawn {
    let shape = Shape {
        people: mostly(chance, 2, 5),
        steps: mostly(chance, 1, 4),
        roles: mostly(chance, 1, 4),
        tables: chance.below(3),
        rules: chance.below(4),
        odds: chance.from_to(4, 8),
        ..PLAIN
    };
    let t = if chance.below(12) == 0 {
        chance.below(33)
    } else {
        minus(chance.below(5), chance.below(3))
    };
    Drawn { shape: shape, t: t }
}

// Middle ones, each turn of another kind.
pub fn middle(chance: &mut Chance, turn: usize) -> Drawn {
    if turn % 2 == 0 {
        some_people(chance)
    } else {
        few_pairs(chance)
    }
}

// Up to 8 people and 5 steps.
fn some_people(chance: &mut Chance) -> Drawn {
    Drawn {
        shape: Shape {
            people: chance.from_to(4, 8),
            steps: chance.from_to(2, 5),
            roles: chance.from_to(2, 6),
            tables: chance.from_to(0, 3),
            rules: chance.from_to(0, 5),
            odds: chance.from_to(3, 5),
            ..PLAIN
        },
        t: chance.from_to(0, 3),
    }
}

// One rule, most often about a table with few pairs, and t of 2: the games come apart often, also those with one strike and with more.
fn few_pairs(chance: &mut Chance) -> Drawn {
    Drawn {
        shape: Shape {
            people: chance.from_to(6, 8),
            steps: chance.from_to(2, 3),
            roles: chance.from_to(2, 4),
            tables: 6,
            rules: 1,
            odds: chance.from_to(6, 7),
            pairs: 2,
            reach: 8,
            ..MILD
        },
        t: 2,
    }
}

// Large ones, each turn of another kind. A match and no table of functions: of twelve turns some share a kind, and a match says so in as many lines.
pub fn large(chance: &mut Chance, turn: usize) -> Drawn {
    match turn % 12 {
        0 => long_chain(chance),
        1 | 2 | 3 => tight_chain(chance),
        4 => two_away_long(chance),
        5 | 6 => two_away(chance),
        7 => three_away(chance),
        8 | 9 => sparse_tables(chance),
        _ => many_rules(chance),
    }
}

// Up to every step, few rules, and t of at most 1.
fn long_chain(chance: &mut Chance) -> Drawn {
    Drawn {
        shape: Shape {
            people: chance.from_to(24, 32),
            steps: chance.from_to(5, 8),
            roles: chance.from_to(3, 7),
            tables: chance.from_to(0, 3),
            rules: chance.from_to(1, 4),
            odds: chance.from_to(2, 3),
            reach: 3,
            ..MILD
        },
        t: minus(1, chance.below(4) / 3),
    }
}

// The same with few people who may do a step, and t of 1.
fn tight_chain(chance: &mut Chance) -> Drawn {
    Drawn {
        shape: Shape {
            people: chance.from_to(24, 32),
            steps: chance.from_to(4, 8),
            roles: chance.from_to(6, 12),
            tables: chance.from_to(0, 6),
            rules: chance.from_to(2, 6),
            odds: 1,
            ..MILD
        },
        t: 1,
    }
}

// Many steps and t of 2: too long for most decremental walks, and not for the others.
fn two_away_long(chance: &mut Chance) -> Drawn {
    Drawn {
        shape: Shape {
            people: chance.from_to(24, 32),
            steps: chance.from_to(5, 8),
            roles: chance.from_to(3, 6),
            tables: chance.from_to(0, 3),
            rules: chance.from_to(0, 2),
            odds: chance.from_to(2, 4),
            pairs: 5,
            reach: 3,
            ..MILD
        },
        t: 2,
    }
}

// Few steps and t of 2.
fn two_away(chance: &mut Chance) -> Drawn {
    Drawn {
        shape: Shape {
            people: chance.from_to(18, 32),
            steps: chance.from_to(2, 4),
            roles: chance.from_to(6, 10),
            tables: chance.from_to(0, 3),
            rules: chance.from_to(1, 3),
            odds: chance.from_to(1, 2),
            ..MILD
        },
        t: 2,
    }
}

// Fewer people and t of 3.
fn three_away(chance: &mut Chance) -> Drawn {
    Drawn {
        shape: Shape {
            people: chance.from_to(10, 16),
            steps: chance.from_to(2, 3),
            roles: chance.from_to(3, 6),
            tables: chance.from_to(0, 3),
            rules: chance.from_to(0, 2),
            odds: chance.from_to(2, 6),
            pairs: 5,
            ..MILD
        },
        t: 3,
    }
}

// Tables that hold few pairs: a plan is found late.
fn sparse_tables(chance: &mut Chance) -> Drawn {
    Drawn {
        shape: Shape {
            people: chance.from_to(24, 32),
            steps: chance.from_to(4, 5),
            roles: chance.from_to(3, 5),
            tables: chance.from_to(3, 6),
            rules: chance.from_to(4, 7),
            odds: 2,
            pairs: 2,
            reach: 8,
            ..MILD
        },
        t: chance.from_to(0, 1),
    }
}

// Up to every limit, where few people may do each step.
fn many_rules(chance: &mut Chance) -> Drawn {
    Drawn {
        shape: Shape {
            people: chance.from_to(24, 32),
            steps: chance.from_to(5, 8),
            roles: chance.from_to(12, 16),
            tables: chance.from_to(3, 6),
            rules: chance.from_to(2, 32),
            odds: 1,
            ..PLAIN
        },
        t: chance.from_to(0, 2),
    }
}

// A number from `least` to `most`; now and then one below.
fn mostly(chance: &mut Chance, least: usize, most: usize) -> usize {
    if chance.below(10) == 0 {
        chance.below(least)
    } else {
        chance.from_to(least, most)
    }
}
