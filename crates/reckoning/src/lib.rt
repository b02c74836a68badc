// The trials of a turn of the away side in the decremental walk, reckoned without going over the absence sets: where the desk always holds with the first
// person who fits, they are a sum over all sets, taken together. Where it does not, nothing is said, and the walk must be made. It knows the board and the
// line of people at a position, and no search.
#![tactic(auto)]

ghost use Rattle.std.specs.Prelude.{◌≡◌, ℕ, ◌+◌, ◌^◌, ◌≤◌, ◌<◌};
ghost use Rattle.sets.specs.Sets.{size};
ghost use Rattle.sets.specs.Stored.{width, number};
ghost use Rattle.games.specs.Walks.{Search, decremental};
ghost use Rattle.games.specs.Limit.{cut};
ghost use Rattle.boards.specs.Arena.{board_arena};
ghost use Rattle.sums.specs.Sums.{Comes};
ghost use Rattle.sums.specs.Arrays.{weight_of};
ghost use Rattle.tries.specs.Outcomes.{verdict_outcome};
ghost use Rattle.reckoning.specs.Reckoned.{Says, Tells};

use boards::Board;
use cases::{Case, Filled, Person};
use sets::People;
use sums::{Absences, ROOM, added, joined, once, product, raised, staying, trials_to, weight};
use tries::{Verdict, line_up, next_step, several};

// How many positions are looked at before a sum is given up.
const LOOKS: u32 = 1000;

// How many trials of a walk take about as long as one look.
const LOOK_TRIALS: u32 = 32;

// The sum of the trials, as it is told, with the looks that are left.
#[derive(Clone, Copy)]
pub struct Reckoned {
    pub trials: u64,
    pub looks: u32,
}

// The trials of a turn of the away side in the decremental walk, where they can be reckoned: no set beats the desk, which holds with the first who fits.
pub fn away_trials(
    board: &Board,
    t: u32,
    away: People,
    p: Filled,
    left: u8,
    limit: u32,
) -> Option<Reckoned>
    requires { (number away < 2 ^ board.now.people) × (size board.now.people (number away) ≤ t) }
    ensures { Tells (decremental (board_arena board.now.words board.now.people) t left (number away) p) result }
{
    if Case::STEPS < (left as usize) {
        return None;
    }
    reckon(
        board,
        once(away, t - away.size()),
        p,
        left,
        looks_within(limit),
    )
}

// The looks of a reckoning: they take no longer than the walk may take to its limit.
fn looks_within(limit: u32) -> u32 {
    LOOKS.min(limit / LOOK_TRIALS)
}

// The trials of the desk's turns from a position, summed over absence sets; or nothing where there is too much room, no look is left, several steps are
// ready, or the desk might not hold with the first who fits. More may go before each later step.
fn reckon(board: &Board, sets: Absences, p: Filled, left: u8, looks: u32) -> Option<Reckoned>
    requires { (number sets.held < 2 ^ board.now.people) × ((u : ℕ) → u < width → weight_of sets u + left < 256) }
    ensures { Says board.now.words board.now.people sets left p result }
{
    if left == 0 {
        return Some(Reckoned { trials: 0, looks });
    }
    if looks == 0 || ROOM < sets.room || several(&board.words, p) {
        return None;
    }
    let step = next_step(&board.words, p);
    let line = line_up(&board.words, board.people, sets.held, p, step).value;
    let fit = line.fit;
    if fit.size() <= sets.room {
        return None;
    }
    let missed = line.tried.difference(fit);
    let mut rest = fit;
    let mut away = sets;
    let mut sum: u64 = 0;
    let mut scale: u64 = 1;
    let mut looks_left = looks - 1;
    while let Some(v) = rest.lowest() {
        let stay = staying(away, v);
        let more = reckon(
            board,
            raised(stay),
            p.placed(step, Person(v)),
            left - 1,
            looks_left,
        )?;
        sum = added(
            sum,
            scale,
            trials_to(board.people, stay, missed, v),
            more.trials,
        );
        looks_left = more.looks;
        let w = weight(away, v);
        if w == 0 || away.room == 0 {
            return Some(Reckoned {
                trials: sum,
                looks: looks_left,
            });
        }
        scale = product(scale, w as u64);
        away = joined(away, v);
        rest = rest.without(v);
    }
    None
}

// The verdict of a walk that comes to no set, from its trials as they are told.
pub fn tell(trials: u64, limit: u32) -> Verdict
    ensures { (w : Search ℕ) → Comes w trials → verdict_outcome limit result ≡ cut limit w }
{
    if (limit as u64) < trials {
        return Verdict::Limit;
    }
    Verdict::Yes(trials as u32)
}
