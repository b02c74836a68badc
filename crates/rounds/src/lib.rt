// The search of the dynamic game, in which absences come anew each round: the dynamic walk. It goes over a board that is lent down every call; it stops at its
// limit, and is proved equal to the walk of `games` on the board's arena, trial for trial. It knows no case, no file and no refusal.
//
// Where one step is ready, a position's people stand in one line: two sets, and no array. Where several are, the desk chooses among lines of moves.
//
// A walk tells at which filled steps it looked to see who fills them. Where it did not look at the step that was filled last, the walks from all other
// placings there are the same: they are counted, and not walked.
#![tactic(auto)]

ghost use Rattle.std.specs.Prelude.{◌≡◌, ◌≤◌, ◌<◌};
ghost use Rattle.games.specs.Walks.{dynamic};
ghost use Rattle.games.specs.Limit.{cut};
ghost use Rattle.boards.specs.Arena.{board_arena};
ghost use Rattle.tries.specs.Outcomes.{verdict_outcome, Tells};

use boards::Board;
use cases::{Filled, Person, joined_steps};
use lines::{Cursor, next_move};
use sets::{People, holds};
use tries::{
    Looked, Try, Verdict, all_bad, all_good, behind, line_up, lines_up, next_step, next_try,
    several,
};

// Have more than t people a good move? If not, who has.
pub fn dynamic_walk(board: &Board, t: u32, p: Filled, left: u8, limit: u32) -> Verdict
    ensures { verdict_outcome limit result ≡ cut limit (dynamic (board_arena board.now.words board.now.people) t left p) }
{
    dynamic_from(board, t, p, left, limit).value
}

// The same, with the steps looked at.
#[cycle(dynamic_choice_dynamic_from)]
pub fn dynamic_from(board: &Board, t: u32, p: Filled, left: u8, limit: u32) -> Looked<Verdict>
    ensures { Tells (dynamic (board_arena board.now.words board.now.people) t left) limit p result.looked (verdict_outcome limit result.value) }
{
    if left == 0 {
        return Looked {
            value: Verdict::Yes(0),
            looked: 0,
        };
    }
    if several(&board.words, p) {
        return dynamic_choice(board, t, p, left, limit);
    }
    let step = next_step(&board.words, p);
    let lined = line_up(&board.words, board.people, People::none(), p, step);
    let whole = lined.value;
    let mut looked = lined.looked;
    if left == 1 {
        return Looked {
            value: all_good(whole, t, 0, limit),
            looked,
        };
    }
    let mut line = whole;
    let mut shown = People::none();
    let mut found: u32 = 0;
    let mut used: u32 = 0;
    loop {
        match next_try(line, used, limit) {
            Try::Limit => {
                return Looked {
                    value: Verdict::Limit,
                    looked,
                };
            }
            Try::Nobody(trials) => {
                return Looked {
                    value: Verdict::No(shown, trials),
                    looked,
                };
            }
            Try::Move(v, trials) => {
                let sub = dynamic_from(board, t, p.placed(step, v), left - 1, limit - trials);
                looked = joined_steps(looked, sub.looked);
                let asked = holds(sub.looked as u16, step.0);
                match sub.value {
                    Verdict::Limit => {
                        return Looked {
                            value: Verdict::Limit,
                            looked,
                        };
                    }
                    Verdict::No(_, more) => {
                        if asked {
                            used = trials + more;
                            line = behind(line, v);
                        } else {
                            return Looked {
                                value: all_bad(whole, more, limit),
                                looked,
                            };
                        }
                    }
                    Verdict::Yes(more) => {
                        if asked {
                            if found == t {
                                return Looked {
                                    value: Verdict::Yes(trials + more),
                                    looked,
                                };
                            }
                            found += 1;
                            shown = shown.with(v.0);
                            used = trials + more;
                            line = behind(line, v);
                        } else {
                            return Looked {
                                value: all_good(whole, t, more, limit),
                                looked,
                            };
                        }
                    }
                }
            }
        }
    }
}

// The same, where the desk may choose its step. A step is left, as a clause says: see `plan_choice` of `plans`.
#[cycle(dynamic_choice_dynamic_from)]
fn dynamic_choice(board: &Board, t: u32, p: Filled, left: u8, limit: u32) -> Looked<Verdict>
    requires { 0 < left }
    ensures { Tells (dynamic (board_arena board.now.words board.now.people) t left) limit p result.looked (verdict_outcome limit result.value) }
{
    let choices = lines_up(&board.words, board.people, p);
    let lines = choices.value;
    let mut looked = choices.looked;
    let mut at = Cursor { person: 0, line: 0 };
    let mut shown = People::none();
    let mut found: u32 = 0;
    let mut used: u32 = 0;
    loop {
        match next_move(lines, at, used, limit) {
            Try::Limit => {
                return Looked {
                    value: Verdict::Limit,
                    looked,
                };
            }
            Try::Nobody(trials) => {
                return Looked {
                    value: Verdict::No(shown, trials),
                    looked,
                };
            }
            Try::Move(m, trials) => {
                let step = lines.lines[m.line as usize].step;
                let sub = dynamic_from(
                    board,
                    t,
                    p.placed(step, Person(m.person)),
                    left - 1,
                    limit - trials,
                );
                looked = joined_steps(looked, sub.looked);
                match sub.value {
                    Verdict::Limit => {
                        return Looked {
                            value: Verdict::Limit,
                            looked,
                        };
                    }
                    Verdict::No(_, more) => {
                        used = trials + more;
                        at = Cursor {
                            person: m.person,
                            line: m.line + 1,
                        };
                    }
                    Verdict::Yes(more) => {
                        if found == t {
                            return Looked {
                                value: Verdict::Yes(trials + more),
                                looked,
                            };
                        }
                        found += 1;
                        shown = shown.with(m.person);
                        used = trials + more;
                        at = Cursor {
                            person: m.person + 1,
                            line: 0,
                        };
                    }
                }
            }
        }
    }
}
