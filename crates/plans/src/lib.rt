// The search for a plan: the plan walk, and whether there is a plan without some people. It stops at its limit, and is proved equal to the walk of `games` on
// the board's arena, trial for trial.
//
// Where one step is ready, a position's people stand in one line: two sets, and no array. Where several are, the desk chooses among lines of moves.
//
// A walk tells at which filled steps it looked to see who fills them, and whom it met: who was asked for, present or away. Where it found no plan and did not
// look at the step that was filled last, the walks from all other placings there are the same: they are counted, and not walked.
#![tactic(auto)]

ghost use Rattle.std.specs.Prelude.{◌≡◌, ◌≤◌, ◌<◌};
ghost use Rattle.sets.specs.Stored.{number};
ghost use Rattle.games.specs.Walks.{plan, if_none};
ghost use Rattle.boards.specs.Arena.{board_arena};
ghost use Rattle.tries.specs.Outcomes.{turn_outcome, PlanTold, Tells};

use boards::Board;
use cases::{Filled, Person, joined_steps};
use lines::{Cursor, next_move};
use sets::{People, holds};
use tries::{
    Looked, PlanEnd, Planned, Try, Turn, behind, line_up, lines_up, next_step, next_try,
    rest_alike, several, up_to, without,
};

// The first plan from a position, with some people away throughout.
#[cycle(plan_choice_plan_walk)]
pub fn plan_walk(board: &Board, absent: People, p: Filled, left: u8, limit: u32) -> Planned
    ensures { PlanTold board.now.words board.now.people (number absent) left limit p result }
{
    if left == 0 {
        return Planned {
            end: PlanEnd::Yes(0),
            plan: p,
            looked: 0,
            met: People::none(),
        };
    }
    if several(&board.words, p) {
        return plan_choice(board, absent, p, left, limit);
    }
    let step = next_step(&board.words, p);
    let lined = line_up(&board.words, board.people, People::none(), p, step);
    let mut looked = lined.looked;
    let mut met = People::none();
    let mut line = lined.value;
    let mut used: u32 = 0;
    loop {
        match next_try(without(line, absent), used, limit) {
            Try::Limit => {
                return Planned {
                    end: PlanEnd::Limit,
                    plan: p,
                    looked,
                    met: met.joined(line.tried),
                };
            }
            Try::Nobody(trials) => {
                return Planned {
                    end: PlanEnd::No(trials),
                    plan: p,
                    looked,
                    met: met.joined(line.tried),
                };
            }
            Try::Move(v, trials) => {
                let sub = plan_walk(board, absent, p.placed(step, v), left - 1, limit - trials);
                looked = joined_steps(looked, sub.looked);
                met = met.joined(up_to(line, v).joined(sub.met));
                let asked = holds(sub.looked as u16, step.0);
                match sub.end {
                    PlanEnd::Limit => {
                        return Planned {
                            end: PlanEnd::Limit,
                            plan: p,
                            looked,
                            met,
                        };
                    }
                    PlanEnd::Yes(more) => {
                        return Planned {
                            end: PlanEnd::Yes(trials + more),
                            plan: sub.plan,
                            looked,
                            met,
                        };
                    }
                    PlanEnd::No(more) => {
                        used = trials + more;
                        line = behind(line, v);
                        if !asked {
                            let all_met = met.joined(line.tried);
                            match rest_alike(without(line, absent), used, more, limit) {
                                None => {
                                    return Planned {
                                        end: PlanEnd::Limit,
                                        plan: p,
                                        looked,
                                        met: all_met,
                                    };
                                }
                                Some(all) => {
                                    return Planned {
                                        end: PlanEnd::No(all),
                                        plan: p,
                                        looked,
                                        met: all_met,
                                    };
                                }
                            }
                        }
                    }
                }
            }
        }
    }
}

// The same, where the desk may choose its step. Everybody counts as met. That a step is left stands in a clause, here and in the other searches: a number of a
// type for that would be taken apart at each turn.
#[cycle(plan_choice_plan_walk)]
fn plan_choice(board: &Board, absent: People, p: Filled, left: u8, limit: u32) -> Planned
    requires { 0 < left }
    ensures { PlanTold board.now.words board.now.people (number absent) left limit p result }
{
    let choices = lines_up(&board.words, board.people, p);
    let lines = choices.value.without(absent);
    let everybody = People::everybody(People::WIDTH);
    let mut looked = choices.looked;
    let mut at = Cursor { person: 0, line: 0 };
    let mut used: u32 = 0;
    loop {
        match next_move(lines, at, used, limit) {
            Try::Limit => {
                return Planned {
                    end: PlanEnd::Limit,
                    plan: p,
                    looked,
                    met: everybody,
                };
            }
            Try::Nobody(trials) => {
                return Planned {
                    end: PlanEnd::No(trials),
                    plan: p,
                    looked,
                    met: everybody,
                };
            }
            Try::Move(m, trials) => {
                let step = lines.lines[m.line as usize].step;
                let sub = plan_walk(
                    board,
                    absent,
                    p.placed(step, Person(m.person)),
                    left - 1,
                    limit - trials,
                );
                looked = joined_steps(looked, sub.looked);
                match sub.end {
                    PlanEnd::Limit => {
                        return Planned {
                            end: PlanEnd::Limit,
                            plan: p,
                            looked,
                            met: everybody,
                        };
                    }
                    PlanEnd::Yes(more) => {
                        return Planned {
                            end: PlanEnd::Yes(trials + more),
                            plan: sub.plan,
                            looked,
                            met: everybody,
                        };
                    }
                    PlanEnd::No(more) => {
                        used = trials + more;
                        at = Cursor {
                            person: m.person,
                            line: m.line + 1,
                        };
                    }
                }
            }
        }
    }
}

// Is there a plan without some people? A turn of the static walk, and of decremental once all are gone.
pub fn without_plan(board: &Board, away: People, p: Filled, left: u8, limit: u32) -> Looked<Turn>
    ensures { Tells (λ q. if_none (number away) (plan (board_arena board.now.words board.now.people) (number away) left q)) limit p result.looked (turn_outcome limit (number away) result.value) }
{
    let walked = plan_walk(board, away, p, left, limit);
    let turn = match walked.end {
        PlanEnd::Limit => Turn::Limit,
        PlanEnd::No(trials) => Turn::Beaten(trials),
        PlanEnd::Yes(trials) => Turn::Holds(trials),
    };
    Looked {
        value: turn,
        looked: walked.looked,
    }
}
