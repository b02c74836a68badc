// The lines at a position where the desk may choose its step: one for each step that is ready.
ghost use Rattle.std.specs.Prelude.{◌≡◌, ◌≤◌};
ghost use Rattle.tries.specs.Choices.{LinesUp, LineOf};

use crate::Looked;
use boards::{PLACES, allowed, fitting, ready};
use cases::{Filled, Step, joined_steps};
use lines::{Line, Lines};
use sets::{People, holds};

// The line of a step, of words and people as in `line_up`.
fn line_of(board: &[u32; PLACES], people: u8, p: Filled, s: Step) -> Looked<Line>
    ensures { LineOf board.now people p s.0 result }
{
    let tried = allowed(board, s).common(People::everybody(people));
    let fitted = fitting(board, p, s, tried);
    Looked {
        value: Line {
            step: s,
            tried,
            fit: fitted.people,
        },
        looked: fitted.looked,
    }
}

// The lines of the steps that are ready.
pub fn lines_up(board: &[u32; PLACES], people: u8, p: Filled) -> Looked<Lines>
    ensures { LinesUp board.now people p result }
{
    let ready = ready(board, p) as u16;
    let mut lines = Lines::none();
    let mut looked: u8 = 0;
    for s in 0..8 {
        if holds(ready, s) {
            let made = line_of(board, people, p, Step(s));
            looked = joined_steps(looked, made.looked);
            lines.lines[lines.count as usize] = made.value;
            lines.count += 1;
        }
    }
    Looked {
        value: lines,
        looked,
    }
}
