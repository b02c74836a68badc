// The one-shot question. What a strike comes to is asked for every node first, set by set, and then what the turns before it come to.
use crate::answers::Answer;
use crate::passes::{pass, plan_pass};
use crate::tries::try_people;
use second_files::plus;
use second_positions::{Cell, Cells, Listed, Slate, cell_in};

pub fn one_shot(slate: &mut Slate) -> Answer {
    let listed = &slate.listed;
    let strike = strike_everywhere(listed, &mut slate.cells);
    wait_everywhere(listed, &mut slate.cells);
    let start = cell_in(&slate.cells.one_shot, 0);
    if start.won {
        return Answer::Yes {
            shown: 0,
            trials: start.trials(),
        };
    }
    // Where the pass beats the desk, no strike is tried.
    let passed = try_people(listed, 0, 0, 1, |kid| cell_in(&slate.cells.one_shot, kid));
    Answer::No {
        shown: if passed.found == 0 { 0 } else { strike },
        trials: start.trials(),
    }
}

// Every set struck at every node, in ascending number. Which is the first to beat the desk at the start? The empty one where none does.
fn strike_everywhere(listed: &Listed, cells: &mut Cells) -> usize {
    // No strike yet: the desk holds, in no trials.
    for struck in cells.struck.iter_mut().take(listed.nodes().len()) {
        *struck = Cell::WON;
    }
    let mut strike = 0;
    for set in listed.sets() {
        let before = cell_in(&cells.struck, 0);
        plan_pass(listed, &mut cells.plan, *set);
        add_strike(listed, &mut cells.struck, &cells.plan);
        if before.won && !cell_in(&cells.struck, 0).won {
            strike = *set;
        }
    }
    strike
}

// One strike more at every node: its people stay away to the end, so that it comes to a plan without them. Behind a strike that beats the desk no other
// is tried.
fn add_strike(listed: &Listed, struck: &mut [Cell], plan: &[Cell]) {
    let nodes = listed.nodes().len();
    for (before, plan) in struck.iter_mut().zip(plan).take(nodes) {
        if before.won {
            *before = Cell::new(plan.won, plus(before.trials(), plan.trials()));
        }
    }
}

// The turns of the away side that has not struck: the pass first, after which everybody is present; and where the desk wins then, the strikes.
fn wait_everywhere(listed: &Listed, cells: &mut Cells) {
    let struck = &cells.struck;
    pass(listed, &mut cells.one_shot, |waiting, node| {
        let passed = try_people(listed, node, 0, 1, |kid| cell_in(waiting, kid));
        if passed.found == 0 {
            passed.cell()
        } else {
            let strike = cell_in(struck, node);
            Cell::new(strike.won, plus(passed.trials, strike.trials()))
        }
    });
}
