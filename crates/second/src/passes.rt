// The questions but one-shot. Every pass goes over the nodes from the last one back, so that a node's kids are done before it.
use crate::answers::Answer;
use crate::tries::{EVERYBODY, member, try_people, without};
use second_files::{plus, rest, times};
use second_positions::{Cell, Listed, MOST_CELLS, Placed, Slate, cell_in, put_cell};

// A pass: what a node comes to follows from the cells behind it. A full position is won.
pub fn pass<F: Fn(&[Cell], usize) -> Cell>(listed: &Listed, cells: &mut [Cell], turn: F)
    requires { F.IsAlwaysCallable turn }
{
    for node in (0..listed.nodes().len()).rev() {
        let done = if listed.is_full(node) {
            Cell::WON
        } else {
            turn(cells, node)
        };
        put_cell(cells, node, done);
    }
}

// Plans that use none of the absent, from every node.
pub fn plan_pass(listed: &Listed, plan: &mut [Cell], absent: usize) {
    pass(listed, plan, |cells, node| {
        try_people(listed, node, absent, 1, |kid| cell_in(cells, kid)).cell()
    });
}

// The plan question.
pub fn first_plan(slate: &mut Slate) -> Answer {
    plan_pass(&slate.listed, &mut slate.cells.plan, 0);
    let start = cell_in(&slate.cells.plan, 0);
    if start.won {
        Answer::Yes {
            shown: plan_shown(&slate.listed, &slate.cells.plan).who,
            trials: start.trials(),
        }
    } else {
        Answer::No {
            shown: 0,
            trials: start.trials(),
        }
    }
}

// The first plan: step by step the lowest person from whom a plan can still be reached.
fn plan_shown(listed: &Listed, plan: &[Cell]) -> Placed {
    let mut placed = Placed::START;
    let mut node = 0;
    for _ in 0..listed.steps {
        let tried = try_people(listed, node, 0, 1, |kid| cell_in(plan, kid));
        let Some(v) = member(tried.good) else {
            return placed;
        };
        let Some(kid) = listed.kid(node, v) else {
            return placed;
        };
        placed = placed.with(v);
        node = kid;
    }
    placed
}

// The static question: a plan for every set, in ascending number, up to the first set without one.
pub fn static_answer(slate: &mut Slate) -> Answer {
    let mut trials = 0;
    for set in slate.listed.sets() {
        plan_pass(&slate.listed, &mut slate.cells.plan, *set);
        let start = cell_in(&slate.cells.plan, 0);
        trials = plus(trials, start.trials());
        if !start.won {
            return Answer::No {
                shown: *set,
                trials: trials,
            };
        }
    }
    Answer::Yes {
        shown: 0,
        trials: trials,
    }
}

// The dynamic question, for every node: is there for each set of at most t absentees somebody present who leaves the desk a win?
pub fn dynamic(slate: &mut Slate, t: usize) -> Answer {
    let listed = &slate.listed;
    pass(listed, &mut slate.cells.dynamic, |cells, node| {
        let all = try_people(listed, node, 0, EVERYBODY, |kid| cell_in(cells, kid));
        let walk = try_people(listed, node, 0, plus(t, 1), |kid| cell_in(cells, kid));
        Cell::new(meets_every_set(listed, all.good), walk.trials)
    });
    let start = cell_in(&slate.cells.dynamic, 0);
    if start.won {
        return Answer::Yes {
            shown: 0,
            trials: start.trials(),
        };
    }
    let all = try_people(listed, 0, 0, EVERYBODY, |kid| {
        cell_in(&slate.cells.dynamic, kid)
    });
    Answer::No {
        shown: all.good,
        trials: start.trials(),
    }
}

// Whichever set is absent, is one of these people present?
fn meets_every_set(listed: &Listed, good: usize) -> bool {
    listed.sets().iter().all(|set| without(good, *set) != 0)
}

// Is there room for a cell for each node with each set?
pub fn has_room(listed: &Listed) -> bool {
    times(listed.nodes().len(), listed.sets().len()) <= MOST_CELLS
}

// The decremental question, for every node with every set. The desk's cells are those of one node at a time, in the end those of the start.
pub fn decremental(slate: &mut Slate) -> Answer {
    let listed = &slate.listed;
    let cells = &mut slate.cells;
    for node in (0..listed.nodes().len()).rev() {
        desk_turns(listed, &mut cells.desk, &cells.away, node);
        away_turns(listed, &cells.desk, &mut cells.away, node);
    }
    let start = cell_in(&cells.away, 0);
    if start.won {
        return Answer::Yes {
            shown: 0,
            trials: start.trials(),
        };
    }
    let enlarged = away_turn(listed, &cells.desk, 0);
    Answer::No {
        shown: enlarged.beaten_by.unwrap_or(0),
        trials: start.trials(),
    }
}

// The desk's turn at a node, for each set of absentees.
fn desk_turns(listed: &Listed, desk: &mut [Cell], away: &[Cell], node: usize) {
    let wide = listed.sets().len();
    for (a, set) in listed.sets().iter().enumerate() {
        let tried = try_people(listed, node, *set, 1, |kid| {
            cell_in(away, cell_at(kid, wide, a))
        });
        put_cell(desk, a, tried.cell());
    }
}

// The away side's turn at a node, from each set of absentees.
fn away_turns(listed: &Listed, desk: &[Cell], away: &mut [Cell], node: usize) {
    let wide = listed.sets().len();
    for a in 0..wide {
        let done = if listed.is_full(node) {
            Cell::WON
        } else {
            away_turn(listed, desk, a).cell()
        };
        put_cell(away, cell_at(node, wide, a), done);
    }
}

// The cell of a node with set a, where each node has `wide` cells.
fn cell_at(node: usize, wide: usize, a: usize) -> usize {
    plus(times(node, wide), a)
}

// What enlarging a set comes to: the first larger set that beats the desk, if one does, and the trials.
#[derive(Clone, Copy)]
struct Enlarged {
    beaten_by: Option<usize>,
    trials: usize,
}

impl Enlarged {
    fn cell(self) -> Cell {
        Cell::new(self.beaten_by.is_none(), self.trials)
    }
}

fn away_turn(listed: &Listed, desk: &[Cell], a: usize) -> Enlarged {
    let current = listed.set(a);
    let mut trials = 0;
    for (larger, cell) in rest(listed.sets(), a).iter().zip(rest(desk, a)) {
        if without(current, *larger) == 0 {
            trials = plus(trials, cell.trials());
            if !cell.won {
                return Enlarged {
                    beaten_by: Some(*larger),
                    trials: trials,
                };
            }
        }
    }
    Enlarged {
        beaten_by: None,
        trials: trials,
    }
}
