// The searches of the decremental game, in which those away stay away and more may go: the away side's turn and the desk's call for each other until no step is left.
// They go over a board that is lent down every call; each stops at its limit, and each is proved equal to the walk of `games` on the board's arena, trial for
// trial. They know no case, no file and no refusal.
//
// Where one step is ready, a position's people are lined up once for all absence sets, and absentees are taken off the line: two sets, and no array. Where
// several are, the desk chooses among lines of moves, from which absentees are taken off too.
//
// A walk tells at which filled steps it looked to see who fills them. Where the desk is beaten and the step that was filled last was not looked at, it is
// beaten after all other placings there in the same way: they are counted, and not walked.
//
// Once the desk has held against the first set of a turn, the trials of all sets are reckoned together where they can be. That is not tried before: it would
// be in vain where the first set beats the desk.
#![tactic(auto)]

ghost use Rattle.std.specs.Prelude.{◌≡◌, ◌-◌, ◌^◌, ◌≤◌, ◌<◌};
ghost use Rattle.sets.specs.Sets.{size};
ghost use Rattle.sets.specs.Stored.{number};
ghost use Rattle.games.specs.Walks.{plan, decremental, if_none};
ghost use Rattle.games.specs.Limit.{cut};
ghost use Rattle.boards.specs.Arena.{board_arena};
ghost use Rattle.tries.specs.Outcomes.{verdict_outcome, turn_outcome, beats_on, Tells};
ghost use Rattle.tries.specs.Trying.{step_on, Alone, LinedUp};
ghost use Rattle.tries.specs.Choices.{LinesUp};

use boards::Board;
use cases::{Case, Filled, Person, Step, joined_steps};
use lines::{Cursor, Lines, next_move};
use plans::without_plan;
use reckoning::{away_trials, tell};
use sets::{People, holds};
use tries::{
    Line, Looked, Try, Turn, Verdict, behind, line_up, lines_up, next_step, next_try, rest_alike,
    several, without,
};

// A turn of fewer trials ends sooner than they are reckoned.
const WORTH: u32 = 64;

// No turn but one at the highest limit has so many.
const NEVER: u32 = u32::MAX;

// A turn of the away side: it goes over the sets of at most t people that contain those away, and stops at the first that beats the desk. The position
// is lined up once for all of them. Where the trials of all sets can be reckoned, that is the answer; it may hang on who fills any step.
// That those away are at most t of the people stands in clauses: it ties a set, t and the board, and a struct of the three would be made anew for each set.
pub fn away_turn(board: &Board, t: u32, away: People, p: Filled, left: u8, limit: u32) -> Verdict
    requires { (number away < 2 ^ board.now.people) × (size board.now.people (number away) ≤ t) }
    ensures { verdict_outcome limit result ≡ cut limit (decremental (board_arena board.now.words board.now.people) t left (number away) p) }
{
    away_from(board, t, away, p, left, limit).value
}

// The same, with the steps looked at.
#[cycle(away_choice_away_from_desk_choice_desk_turn)]
fn away_from(
    board: &Board,
    t: u32,
    away: People,
    p: Filled,
    left: u8,
    limit: u32,
) -> Looked<Verdict>
    requires { (number away < 2 ^ board.now.people) × (size board.now.people (number away) ≤ t) }
    ensures { Tells (decremental (board_arena board.now.words board.now.people) t left (number away)) limit p result.looked (verdict_outcome limit result.value) }
{
    if left == 0 {
        return Looked {
            value: Verdict::Yes(0),
            looked: 0,
        };
    }
    if away.size() == t {
        return all_gone(board, away, p, left, limit);
    }
    if several(&board.words, p) {
        return away_choice(board, t, away, p, left, limit);
    }
    let step = next_step(&board.words, p);
    let lined = line_up(&board.words, board.people, People::none(), p, step);
    let mut looked: u8 = 0;
    let mut gone = away;
    let mut used: u32 = 0;
    let mut reckon_from = WORTH;
    loop {
        let turned = desk_turn(board, t, gone, p, step, lined, left, limit - used);
        looked = joined_steps(looked, turned.looked);
        match turned.value {
            Turn::Limit => {
                return Looked {
                    value: Verdict::Limit,
                    looked,
                };
            }
            Turn::Beaten(trials) => {
                return Looked {
                    value: Verdict::No(gone, used + trials),
                    looked,
                };
            }
            Turn::Holds(trials) => {
                used += trials;
            }
        }
        match gone.next(board.people, t, away) {
            Some(larger) => {
                gone = larger;
            }
            None => {
                return Looked {
                    value: Verdict::Yes(used),
                    looked,
                };
            }
        }
        if used < reckon_from {
            continue;
        }
        reckon_from = NEVER;
        if let Some(reckoned) = away_trials(board, t, away, p, left, limit) {
            return Looked {
                value: tell(reckoned.trials, limit),
                looked: Case::ALL_STEPS,
            };
        }
    }
}

// A turn of the desk with some people away, who are taken off the position's line: it stops at the first person who leaves a position from which the
// away side cannot win. A step is left, as a clause says: see `plan_choice` of `plans`.
#[cycle(away_choice_away_from_desk_choice_desk_turn)]
fn desk_turn(
    board: &Board,
    t: u32,
    away: People,
    p: Filled,
    step: Step,
    lined: Looked<Line>,
    left: u8,
    limit: u32,
) -> Looked<Turn>
    requires { (0 < left) × (number away < 2 ^ board.now.people) × (size board.now.people (number away) ≤ t) × (step.0 ≡ step_on board.now.words p) × Alone board.now.words p × LinedUp board.now.words board.now.people 0 p lined }
    ensures { Tells (λ q. beats_on board.now.words board.now.people t (left - 1) q (number away)) limit p result.looked (turn_outcome limit (number away) result.value) }
{
    let mut looked = lined.looked;
    let mut line = without(lined.value, away);
    let mut used: u32 = 0;
    loop {
        match next_try(line, used, limit) {
            Try::Limit => {
                return Looked {
                    value: Turn::Limit,
                    looked,
                };
            }
            Try::Nobody(trials) => {
                return Looked {
                    value: Turn::Beaten(trials),
                    looked,
                };
            }
            Try::Move(v, trials) => {
                let sub = away_from(board, t, away, p.placed(step, v), left - 1, limit - trials);
                looked = joined_steps(looked, sub.looked);
                let asked = holds(sub.looked as u16, step.0);
                match sub.value {
                    Verdict::Limit => {
                        return Looked {
                            value: Turn::Limit,
                            looked,
                        };
                    }
                    Verdict::Yes(more) => {
                        return Looked {
                            value: Turn::Holds(trials + more),
                            looked,
                        };
                    }
                    Verdict::No(_, more) => {
                        used = trials + more;
                        line = behind(line, v);
                        if !asked {
                            match rest_alike(line, used, more, limit) {
                                None => {
                                    return Looked {
                                        value: Turn::Limit,
                                        looked,
                                    };
                                }
                                Some(all) => {
                                    return Looked {
                                        value: Turn::Beaten(all),
                                        looked,
                                    };
                                }
                            }
                        }
                    }
                }
            }
        }
    }
}

// The away side's turn, where the desk may choose its step.
#[cycle(away_choice_away_from_desk_choice_desk_turn)]
fn away_choice(
    board: &Board,
    t: u32,
    away: People,
    p: Filled,
    left: u8,
    limit: u32,
) -> Looked<Verdict>
    requires { (0 < left) × (number away < 2 ^ board.now.people) × (size board.now.people (number away) ≤ t) }
    ensures { Tells (decremental (board_arena board.now.words board.now.people) t left (number away)) limit p result.looked (verdict_outcome limit result.value) }
{
    let choices = lines_up(&board.words, board.people, p);
    let mut looked: u8 = 0;
    let mut gone = away;
    let mut used: u32 = 0;
    loop {
        let turned = desk_choice(board, t, gone, p, choices, left, limit - used);
        looked = joined_steps(looked, turned.looked);
        match turned.value {
            Turn::Limit => {
                return Looked {
                    value: Verdict::Limit,
                    looked,
                };
            }
            Turn::Beaten(trials) => {
                return Looked {
                    value: Verdict::No(gone, used + trials),
                    looked,
                };
            }
            Turn::Holds(trials) => {
                used += trials;
            }
        }
        match gone.next(board.people, t, away) {
            Some(larger) => {
                gone = larger;
            }
            None => {
                return Looked {
                    value: Verdict::Yes(used),
                    looked,
                };
            }
        }
    }
}

// The desk's turn, where it may choose its step: those away are taken off the position's lines.
#[cycle(away_choice_away_from_desk_choice_desk_turn)]
fn desk_choice(
    board: &Board,
    t: u32,
    away: People,
    p: Filled,
    choices: Looked<Lines>,
    left: u8,
    limit: u32,
) -> Looked<Turn>
    requires { (0 < left) × (number away < 2 ^ board.now.people) × (size board.now.people (number away) ≤ t) × LinesUp board.now.words board.now.people p choices }
    ensures { Tells (λ q. beats_on board.now.words board.now.people t (left - 1) q (number away)) limit p result.looked (turn_outcome limit (number away) result.value) }
{
    let lines = choices.value.without(away);
    let mut looked = choices.looked;
    let mut at = Cursor { person: 0, line: 0 };
    let mut used: u32 = 0;
    loop {
        match next_move(lines, at, used, limit) {
            Try::Limit => {
                return Looked {
                    value: Turn::Limit,
                    looked,
                };
            }
            Try::Nobody(trials) => {
                return Looked {
                    value: Turn::Beaten(trials),
                    looked,
                };
            }
            Try::Move(m, trials) => {
                let step = lines.lines[m.line as usize].step;
                let sub = away_from(
                    board,
                    t,
                    away,
                    p.placed(step, Person(m.person)),
                    left - 1,
                    limit - trials,
                );
                looked = joined_steps(looked, sub.looked);
                match sub.value {
                    Verdict::Limit => {
                        return Looked {
                            value: Turn::Limit,
                            looked,
                        };
                    }
                    Verdict::Yes(more) => {
                        return Looked {
                            value: Turn::Holds(trials + more),
                            looked,
                        };
                    }
                    Verdict::No(_, more) => {
                        used = trials + more;
                        at = Cursor {
                            person: m.person,
                            line: m.line + 1,
                        };
                    }
                }
            }
        }
    }
}

// A turn of the away side with all gone who may go: nobody else can, and the rest is a plan without them.
fn all_gone(board: &Board, away: People, p: Filled, left: u8, limit: u32) -> Looked<Verdict>
    ensures { Tells (λ q. if_none (number away) (plan (board_arena board.now.words board.now.people) (number away) left q)) limit p result.looked (verdict_outcome limit result.value) }
{
    let turned = without_plan(board, away, p, left, limit);
    let verdict = match turned.value {
        Turn::Limit => Verdict::Limit,
        Turn::Beaten(trials) => Verdict::No(away, trials),
        Turn::Holds(trials) => Verdict::Yes(trials),
    };
    Looked {
        value: verdict,
        looked: turned.looked,
    }
}
