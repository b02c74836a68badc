// The text of the program `verdicts`, as a function of its input. It knows the layout of the input and the lines, and nothing of streams.
#![tactic(auto)]

mod room;
mod text;
mod text_lines;

ghost use Rattle.std.specs.Prelude.{◌≡◌, []};
ghost use Rattle.files.specs.Reading.{read_of};
ghost use Rattle.refusals.specs.Refusals.{Good};
ghost use Rattle.asking.specs.Asking.{judged_question};
ghost use Rattle.telling.specs.Telling.{file_in, answer_lines, text_of};
ghost use Rattle.telling.specs.Held.{held, put};

use asking::judge_number;
use boards::Board;
use cases::Case;
use files::{FileRead, read};
use laying::lay_out;
use pieces::Order;
use planner::{Question, ask_laid, plan_laid};
use refusals::or_else;
pub use text::Text;
pub use text_lines::{put_asked, put_case, put_plan, put_refusal, put_verdict};
use words::{long_at, word_at};

// What the program writes for this input: the lines of a case's answers, or the one line of a refusal. No input is too short or too long.
pub fn tell(input: &[u8]) -> Text
    ensures { result ≡ held (text_of input.now) }
{
    let t = word_at(input, 0) as u32;
    let limit = long_at(input, 2);
    let file = read_file(input);
    match or_else(file.judged, judge_number(t)) {
        Err(refusal) => put_refusal(Text::empty(), refusal),
        Ok(()) => answer_lines(file.held, t, limit),
    }
}

// The case behind t and the limit. Fewer than 6 bytes are read as an empty file.
fn read_file(input: &[u8]) -> FileRead
    ensures { result ≡ read_of (file_in input.now) }
{
    if input.len() < 6 {
        read(&input[..0])
    } else {
        read(&input[6..])
    }
}

// The lines for a case that is judged with t: its counts, what is asked, and a line for each answer in the order of the questions. The case is laid out
// once for all of them.
fn answer_lines(case: Case, t: u32, limit: u32) -> Text
    requires { judged_question case t ≡ Good }
    ensures { result ≡ put (held []) (answer_lines case t limit) }
{
    let head = put_asked(put_case(Text::empty(), case.counts), t, limit);
    let words = lay_out(case, Order::Listed);
    let board = Board {
        words,
        people: case.counts.people as u8,
    };
    let steps = case.counts.steps as u8;
    let plan = plan_laid(&board, steps, limit);
    let fixed = ask_laid(Question::Static, &board, t, steps, limit);
    let growing = ask_laid(Question::Decremental, &board, t, steps, limit);
    let struck = ask_laid(Question::OneShot, &board, t, steps, limit);
    let changing = ask_laid(Question::Dynamic, &board, t, steps, limit);
    let first = put_verdict(put_plan(head, Ok(plan)), b"static", Ok(fixed));
    let second = put_verdict(first, b"decremental", Ok(growing));
    let third = put_verdict(second, b"one-shot", Ok(struck));
    put_verdict(third, b"dynamic", Ok(changing))
}
