// The static walk, which asks for a plan without each set of people. It stops at its limit, and is proved equal to the walk of `games` on the board's arena,
// trial for trial.
//
// From a set that has a plan it leaps, where it can, over all sets with people below a bound besides, with the sum of their trials.
#![tactic(auto)]

ghost use Rattle.std.specs.Prelude.{◌≡◌, ◌≤◌};
ghost use Rattle.games.specs.Walks.{static};
ghost use Rattle.games.specs.Limit.{cut};
ghost use Rattle.boards.specs.Arena.{board_arena};
ghost use Rattle.tries.specs.Outcomes.{verdict_outcome, Tells};

use boards::Board;
use cases::{Case, Filled, joined_steps};
use leaps::leap_from;
use plans::plan_walk;
use sets::People;
use tries::{Looked, PlanEnd, Verdict};

// Of the limit, the trials that leaps may make in vain: one in so many.
const IN_VAIN: u32 = 8;

// The sets of at most t people, a plan walk each; it stops at the first without a plan. With no step left there is nothing to walk.
pub fn static_walk(board: &Board, t: u32, p: Filled, left: u8, limit: u32) -> Verdict
    ensures { verdict_outcome limit result ≡ cut limit (static (board_arena board.now.words board.now.people) t left p) }
{
    static_from(board, t, p, left, limit).value
}

// The same, with the steps looked at. What a leap tells may hang on who fills any step.
pub fn static_from(board: &Board, t: u32, p: Filled, left: u8, limit: u32) -> Looked<Verdict>
    ensures { Tells (static (board_arena board.now.words board.now.people) t left) limit p result.looked (verdict_outcome limit result.value) }
{
    if left == 0 {
        return Looked {
            value: Verdict::Yes(0),
            looked: 0,
        };
    }
    let mut set = People::none();
    let mut used: u32 = 0;
    let mut looked: u8 = 0;
    let mut spare = limit / IN_VAIN;
    loop {
        let walked = plan_walk(board, set, p, left, limit - used);
        looked = joined_steps(looked, walked.looked);
        match walked.end {
            PlanEnd::Limit => {
                return Looked {
                    value: Verdict::Limit,
                    looked,
                };
            }
            PlanEnd::No(trials) => {
                return Looked {
                    value: Verdict::No(set, used + trials),
                    looked,
                };
            }
            PlanEnd::Yes(trials) => {
                match leap_from(board, t, set, p, left, walked, limit - used, spare) {
                    Ok(leap) => {
                        looked = Case::ALL_STEPS;
                        let all = (used as u64) + leap.trials;
                        if (limit as u64) < all {
                            return Looked {
                                value: Verdict::Limit,
                                looked,
                            };
                        }
                        used = all as u32;
                        if leap.below == board.people {
                            return Looked {
                                value: Verdict::Yes(used),
                                looked,
                            };
                        }
                        set = set.with(leap.below);
                        continue;
                    }
                    Err(spare_left) => {
                        spare = spare_left;
                    }
                }
                used += trials;
            }
        }
        match set.next(board.people, t, People::none()) {
            Some(larger) => {
                set = larger;
            }
            None => {
                return Looked {
                    value: Verdict::Yes(used),
                    looked,
                };
            }
        }
    }
}
