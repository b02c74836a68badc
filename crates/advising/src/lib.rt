// Advice in the dynamic game, in which absences come anew each round. It goes over a board that is lent down every call; it stops at its limit, and is proved
// equal to the walk of `games` on the board's arena, trial for trial. It knows no case, no file and no refusal.
//
// Where one step is ready, the people present stand in one line: two sets, and no array. Where several are, the desk chooses among lines of moves, from which
// absentees are taken off.
//
// After each placing the dynamic walk tells at which filled steps it looked to see who fills them. Where a placing is not good and its step was not looked at,
// all other placings there are the same: they are counted, and not walked.
#![tactic(auto)]

ghost use Rattle.std.specs.Prelude.{◌≡◌, ◌≤◌, ◌<◌};
ghost use Rattle.sets.specs.Stored.{number};
ghost use Rattle.games.specs.Walks.{advice};
ghost use Rattle.games.specs.Limit.{cut};
ghost use Rattle.boards.specs.Arena.{board_arena};
ghost use Rattle.tries.specs.Outcomes.{advised_outcome};

use boards::Board;
use cases::{Filled, Person};
use lines::{Cursor, next_move};
use rounds::dynamic_from;
use sets::{People, holds};
use tries::{
    Advised, Try, Verdict, behind, line_up, lines_up, next_step, next_try, rest_alike, several,
};

// The first good move of the lowest present person who has one.
pub fn advice_walk(
    board: &Board,
    t: u32,
    absent: People,
    p: Filled,
    left: u8,
    limit: u32,
) -> Advised
    ensures { advised_outcome limit result ≡ cut limit (advice (board_arena board.now.words board.now.people) t left (number absent) p) }
{
    if left == 0 {
        return Advised::Nobody(0);
    }
    if several(&board.words, p) {
        return advice_choice(board, t, absent, p, left, limit);
    }
    let step = next_step(&board.words, p);
    let lined = line_up(&board.words, board.people, absent, p, step);
    let mut line = lined.value;
    let mut used: u32 = 0;
    loop {
        match next_try(line, used, limit) {
            Try::Limit => {
                return Advised::Limit;
            }
            Try::Nobody(trials) => {
                return Advised::Nobody(trials);
            }
            Try::Move(v, trials) => {
                let sub = dynamic_from(board, t, p.placed(step, v), left - 1, limit - trials);
                let asked = holds(sub.looked as u16, step.0);
                match sub.value {
                    Verdict::Limit => {
                        return Advised::Limit;
                    }
                    Verdict::Yes(more) => {
                        return Advised::Move(step, v, trials + more);
                    }
                    Verdict::No(_, more) => {
                        used = trials + more;
                        line = behind(line, v);
                        if !asked {
                            match rest_alike(line, used, more, limit) {
                                None => {
                                    return Advised::Limit;
                                }
                                Some(all) => {
                                    return Advised::Nobody(all);
                                }
                            }
                        }
                    }
                }
            }
        }
    }
}

// The same, where the desk may choose its step. A step is left, as a clause says: see `plan_choice` of `plans`.
fn advice_choice(board: &Board, t: u32, absent: People, p: Filled, left: u8, limit: u32) -> Advised
    requires { 0 < left }
    ensures { advised_outcome limit result ≡ cut limit (advice (board_arena board.now.words board.now.people) t left (number absent) p) }
{
    let choices = lines_up(&board.words, board.people, p);
    let lines = choices.value.without(absent);
    let mut at = Cursor { person: 0, line: 0 };
    let mut used: u32 = 0;
    loop {
        match next_move(lines, at, used, limit) {
            Try::Limit => {
                return Advised::Limit;
            }
            Try::Nobody(trials) => {
                return Advised::Nobody(trials);
            }
            Try::Move(m, trials) => {
                let step = lines.lines[m.line as usize].step;
                let v = Person(m.person);
                let sub = dynamic_from(board, t, p.placed(step, v), left - 1, limit - trials);
                match sub.value {
                    Verdict::Limit => {
                        return Advised::Limit;
                    }
                    Verdict::Yes(more) => {
                        return Advised::Move(step, v, trials + more);
                    }
                    Verdict::No(_, more) => {
                        used = trials + more;
                        at = Cursor {
                            person: m.person,
                            line: m.line + 1,
                        };
                    }
                }
            }
        }
    }
}
