// The searches of the one-shot game. Until the away side strikes, its turn and the desk's call for each other; from a strike on the desk is alone, as in the static
// walk. They go over a board that is lent down every call; each stops at its limit, and each is proved equal to the walk of `games` on the board's arena, trial
// for trial. They know no case, no file and no refusal.
//
// Where one step is ready, a position's people stand in one line: two sets, and no array. Where several are, the desk chooses among lines of moves.
//
// A walk tells at which filled steps it looked to see who fills them. Where the desk is beaten and the step that was filled last was not looked at, it is
// beaten after all other placings there in the same way: they are counted, and not walked.
#![tactic(auto)]

ghost use Rattle.std.specs.Prelude.{◌≡◌, ◌-◌, ◌≤◌, ◌<◌};
ghost use Rattle.games.specs.Walks.{plus, static, one_shot};
ghost use Rattle.games.specs.Limit.{cut};
ghost use Rattle.boards.specs.Arena.{board_arena};
ghost use Rattle.tries.specs.Outcomes.{verdict_outcome, turn_outcome, pass_on, Tells};

use boards::Board;
use cases::{Filled, Person, joined_steps};
use lines::{Cursor, next_move};
use sets::{People, holds};
use statics::static_from;
use tries::{
    Looked, Try, Turn, Verdict, behind, line_up, lines_up, next_step, next_try, rest_alike, several,
};

// A turn of the away side that has not struck: the pass, then the strikes; it stops at the first that beats the desk. A pass is shown as nobody.
pub fn one_shot_walk(board: &Board, t: u32, p: Filled, left: u8, limit: u32) -> Verdict
    ensures { verdict_outcome limit result ≡ cut limit (one_shot (board_arena board.now.words board.now.people) t left p) }
{
    one_shot_from(board, t, p, left, limit).value
}

// The same, with the steps looked at.
#[cycle(one_shot_from_pass_choice_pass_turn)]
fn one_shot_from(board: &Board, t: u32, p: Filled, left: u8, limit: u32) -> Looked<Verdict>
    ensures { Tells (one_shot (board_arena board.now.words board.now.people) t left) limit p result.looked (verdict_outcome limit result.value) }
{
    if left == 0 {
        return Looked {
            value: Verdict::Yes(0),
            looked: 0,
        };
    }
    let passed = pass_turn(board, t, p, left, limit);
    let looked = passed.looked;
    match passed.value {
        Turn::Limit => Looked {
            value: Verdict::Limit,
            looked,
        },
        Turn::Beaten(trials) => Looked {
            value: Verdict::No(People::none(), trials),
            looked,
        },
        Turn::Holds(trials) => {
            let struck = then_strikes(board, t, p, left, trials, limit);
            Looked {
                value: struck.value,
                looked: joined_steps(looked, struck.looked),
            }
        }
    }
}

// A turn of the desk after a pass, with everybody present: it stops at the first person who leaves a position from which the away side cannot win. A step is
// left, as a clause says: see `plan_choice` of `plans`.
#[cycle(one_shot_from_pass_choice_pass_turn)]
fn pass_turn(board: &Board, t: u32, p: Filled, left: u8, limit: u32) -> Looked<Turn>
    requires { 0 < left }
    ensures { Tells (pass_on board.now.words board.now.people t (left - 1)) limit p result.looked (turn_outcome limit 0 result.value) }
{
    if several(&board.words, p) {
        return pass_choice(board, t, p, left, limit);
    }
    let step = next_step(&board.words, p);
    let lined = line_up(&board.words, board.people, People::none(), p, step);
    let mut looked = lined.looked;
    let mut line = lined.value;
    let mut used: u32 = 0;
    loop {
        match next_try(line, used, limit) {
            Try::Limit => {
                return Looked {
                    value: Turn::Limit,
                    looked,
                };
            }
            Try::Nobody(trials) => {
                return Looked {
                    value: Turn::Beaten(trials),
                    looked,
                };
            }
            Try::Move(v, trials) => {
                let sub = one_shot_from(board, t, p.placed(step, v), left - 1, limit - trials);
                looked = joined_steps(looked, sub.looked);
                let asked = holds(sub.looked as u16, step.0);
                match sub.value {
                    Verdict::Limit => {
                        return Looked {
                            value: Turn::Limit,
                            looked,
                        };
                    }
                    Verdict::Yes(more) => {
                        return Looked {
                            value: Turn::Holds(trials + more),
                            looked,
                        };
                    }
                    Verdict::No(_, more) => {
                        used = trials + more;
                        line = behind(line, v);
                        if !asked {
                            match rest_alike(line, used, more, limit) {
                                None => {
                                    return Looked {
                                        value: Turn::Limit,
                                        looked,
                                    };
                                }
                                Some(all) => {
                                    return Looked {
                                        value: Turn::Beaten(all),
                                        looked,
                                    };
                                }
                            }
                        }
                    }
                }
            }
        }
    }
}

// The same, where the desk may choose its step.
#[cycle(one_shot_from_pass_choice_pass_turn)]
fn pass_choice(board: &Board, t: u32, p: Filled, left: u8, limit: u32) -> Looked<Turn>
    requires { 0 < left }
    ensures { Tells (pass_on board.now.words board.now.people t (left - 1)) limit p result.looked (turn_outcome limit 0 result.value) }
{
    let choices = lines_up(&board.words, board.people, p);
    let lines = choices.value;
    let mut looked = choices.looked;
    let mut at = Cursor { person: 0, line: 0 };
    let mut used: u32 = 0;
    loop {
        match next_move(lines, at, used, limit) {
            Try::Limit => {
                return Looked {
                    value: Turn::Limit,
                    looked,
                };
            }
            Try::Nobody(trials) => {
                return Looked {
                    value: Turn::Beaten(trials),
                    looked,
                };
            }
            Try::Move(m, trials) => {
                let step = lines.lines[m.line as usize].step;
                let sub = one_shot_from(
                    board,
                    t,
                    p.placed(step, Person(m.person)),
                    left - 1,
                    limit - trials,
                );
                looked = joined_steps(looked, sub.looked);
                match sub.value {
                    Verdict::Limit => {
                        return Looked {
                            value: Turn::Limit,
                            looked,
                        };
                    }
                    Verdict::Yes(more) => {
                        return Looked {
                            value: Turn::Holds(trials + more),
                            looked,
                        };
                    }
                    Verdict::No(_, more) => {
                        used = trials + more;
                        at = Cursor {
                            person: m.person,
                            line: m.line + 1,
                        };
                    }
                }
            }
        }
    }
}

// The strikes, where the pass has used some trials: whoever is struck stays away to the end, so they are the static walk from here.
fn then_strikes(
    board: &Board,
    t: u32,
    p: Filled,
    left: u8,
    used: u32,
    limit: u32,
) -> Looked<Verdict>
    requires { used ≤ limit }
    ensures { Tells (λ q. plus used (static (board_arena board.now.words board.now.people) t left q)) limit p result.looked (verdict_outcome limit result.value) }
{
    let walked = static_from(board, t, p, left, limit - used);
    let verdict = match walked.value {
        Verdict::Limit => Verdict::Limit,
        Verdict::Yes(more) => Verdict::Yes(used + more),
        Verdict::No(set, more) => Verdict::No(set, used + more),
    };
    Looked {
        value: verdict,
        looked: walked.looked,
    }
}
