// Advice and away, from the cells of the dynamic question, and what is turned away before them.
use crate::answers::Answer;
use crate::tries::{member, try_people};
use second_files::{File, Reason, Turned, down, plus, size};
use second_positions::{Listed, Placed, Slate, cell_in, keeps, may};

// A position judged by 13.
pub fn judged_position(file: &File, placed: Placed) -> Result<(), Turned> {
    if file.steps() <= placed.length {
        return Err(Reason::Position.at(file.steps()));
    }
    for i in 0..placed.length {
        if !may(file, placed.person(i), i) || !keeps(file, placed.up_to(i + 1)) {
            return Err(Reason::Position.at(i));
        }
    }
    Ok(())
}

// An absence set judged by 14.
pub fn judged_absent(file: &File, t: usize, absent: usize) -> Result<(), Turned> {
    if down(absent, file.people()) != 0 || t < size(absent) {
        Err(Reason::Absence.at(0))
    } else {
        Ok(())
    }
}

// The node of a position, if it is a valid one.
pub fn node_of(listed: &Listed, placed: Placed) -> Option<usize> {
    let mut node = 0;
    for i in 0..placed.length {
        node = listed.kid(node, placed.person(i))?;
    }
    Some(node)
}

// The lowest present person who leaves a good position.
pub fn advice(slate: &Slate, node: usize, absent: usize) -> Answer {
    let dynamic = &slate.cells.dynamic;
    let tried = try_people(&slate.listed, node, absent, 1, |kid| cell_in(dynamic, kid));
    match member(tried.good) {
        None => Answer::No {
            shown: 0,
            trials: tried.trials,
        },
        Some(v) => Answer::Yes {
            shown: v,
            trials: tried.trials,
        },
    }
}

// All people who leave a good position, if they are at most t.
pub fn away(slate: &Slate, node: usize, t: usize) -> Answer {
    let dynamic = &slate.cells.dynamic;
    let tried = try_people(
        &slate.listed,
        node,
        0,
        plus(t, 1),
        |kid| cell_in(dynamic, kid),
    );
    if t < tried.found {
        Answer::No {
            shown: 0,
            trials: tried.trials,
        }
    } else {
        Answer::Yes {
            shown: tried.good,
            trials: tried.trials,
        }
    }
}
