// Judging what a question is asked with: the absence number t, an absence set, a position. It knows the board, on which a position is judged, and
// nothing of files or searches.
#![tactic(auto)]

ghost use Rattle.std.specs.Prelude.{◌≡◌, [], ◌∷◌, ◌≤◌};
ghost use Rattle.sets.specs.Stored.{number};
ghost use Rattle.cases.specs.Case.{most_steps};
ghost use Rattle.cases.specs.Positions.{persons};
ghost use Rattle.refusals.specs.Refusals.{judged_by};
ghost use Rattle.meaning.specs.Listed.{filled_by};
ghost use Rattle.asking.specs.Asking.{number_check, absence_check};
ghost use Rattle.asking.specs.OnBoard.{bad_next, position_check_on};

use boards::{PLACES, allowed, fits};
use cases::{Filled, Person, Position, Step};
use refusals::{Refusal, refused_if};
use sets::People;

// The highest absence number.
pub const MOST_ABSENT: u32 = 32;

// 12: judges the absence number.
pub fn judge_number(t: u32) -> Result<(), Refusal>
    ensures { result ≡ judged_by (number_check t ∷ []) }
{
    refused_if(MOST_ABSENT < t, 12, 0)
}

// 13: judges a position on a board, for so many people and steps. The place is the step count where the position is too long, else the index of the
// first entry that is unknown, not allowed, or makes the position invalid. The contract holds for every number of people, so it takes no `Board`.
pub fn judge_position(
    board: &[u32; PLACES],
    people: u16,
    steps: u16,
    p: Position,
) -> Result<(), Refusal>
    requires { steps ≤ most_steps }
    ensures { result ≡ judged_by (position_check_on board.now people steps (persons p) ∷ []) }
{
    let len = p.len;
    if steps <= (len as u16) {
        return Err(Refusal {
            number: 13,
            place: steps as usize,
        });
    }
    let mut passed = Filled::start();
    for i in 0..len {
        let v = p.person(i);
        if bad_next(board, people, passed, Step(i), v) {
            return Err(Refusal {
                number: 13,
                place: i as usize,
            });
        }
        passed = passed.placed(Step(i), v);
    }
    Ok(())
}

// Placed at step s, is person v unknown, not allowed, or does a rule break?
fn bad_next(board: &[u32; PLACES], people: u16, p: Filled, s: Step, v: Person) -> bool
    ensures { result ≡ bad_next board.now people p s.0 v.0 }
{
    if people <= (v.0 as u16) {
        return true;
    }
    let able = allowed(board, s);
    if !able.has(v.0) {
        return true;
    }
    !fits(board, p, s, able).has(v.0)
}

// A position as a search carries it: its persons in the first steps.
pub fn filled(p: Position) -> Filled
    ensures { result ≡ filled_by (persons p) }
{
    let mut q = Filled::start();
    for i in 0..p.len {
        q = q.placed(Step(i), p.person(i));
    }
    q
}

// 14: judges a set of absentees, for so many people and an absence number.
pub fn judge_absent(people: u16, t: u32, absent: People) -> Result<(), Refusal>
    ensures { result ≡ judged_by (absence_check people t (number absent) ∷ []) }
{
    refused_if(absent.past(people), 14, 0)?;
    refused_if(t < absent.size(), 14, 0)
}
