// The planner for other languages: functions on a file's bytes and plain numbers, which C and Rust call through the archive of `rodcrank_c`: a library
// exports nothing itself. Each reads the case from its file, asks the planner, and leaves one answer of 18 numbers in the caller's array; the crate
// `replies` says what stands at each place. A refused file is asked nothing; the case of a good one is judged once, when it is read. No exported
// function has a `requires`, none keeps anything, and nothing but the caller's answer or text is written.
#![tactic(auto)]

ghost use Rattle.std.specs.Prelude.{◌≡◌, ◌≤◌, length, take};
ghost use Rattle.std.specs.Result.{result_and, result_map_both};
ghost use Rattle.sets.specs.Stored.{from_words};
ghost use Rattle.cases.specs.Positions.{persons};
ghost use Rattle.layout.specs.Layout.{case_of};
ghost use Rattle.files.specs.Checks.{judged_file};
ghost use Rattle.asking.specs.Asking.{judged_away};
ghost use Rattle.planner.specs.Answers.{given};
ghost use Rattle.planner.specs.Calls.{plan_call, question_call, away_call};
ghost use Rattle.telling.specs.Telling.{text_of};
ghost use Rattle.rodcrank.specs.Calls.{judge_file, plan_file, static_file, decremental_file, one_shot_file, dynamic_file, unknown_absent, advised, advice_file, away_file, filled_with};

use cases::{Position, Step};
use files::{judge, read};
use judging::GoodCase;
use planner::{
    AdviceAnswer, AwayAnswer, PlanAnswer, Question, VerdictAnswer, advise_good, ask_good,
    away_good, plan_good,
};
use refusals::Refusal;
use replies::{advice_reply, away_reply, plan_reply, position_of, refused, said, verdict_reply};
pub use replies::{LIMIT, NAMED, NO, NOBODY, NUMBERS, YES};
use sets::People;
use telling::{Text, tell};

// Is the file good? Yes, or refused by 1 to 11.
#[unsafe(no_mangle)]
pub extern "C" fn rodcrank_judge(file: &[u8], out: &mut [u64; NUMBERS])
    ensures { out.new ≡ judge_file file.now }
{
    *out = match judge(file) {
        Ok(()) => said(YES, 0),
        Err(refusal) => refused(refusal),
    };
}

// Is there a plan? Yes with the first plan, no, or "limit"; or refused by 1 to 11.
#[unsafe(no_mangle)]
pub extern "C" fn rodcrank_plan(file: &[u8], limit: u32, out: &mut [u64; NUMBERS])
    ensures { out.new ≡ plan_file file.now limit }
{
    *out = plan_reply(ask_plan(file, limit));
}

// The static verdict: yes, no with the set shown, or "limit"; or refused by 1 to 12.
#[unsafe(no_mangle)]
pub extern "C" fn rodcrank_static(file: &[u8], t: u32, limit: u32, out: &mut [u64; NUMBERS])
    ensures { out.new ≡ static_file file.now t limit }
{
    *out = verdict_reply(ask(Question::Static, file, t, limit));
}

// The decremental verdict, in the same way.
#[unsafe(no_mangle)]
pub extern "C" fn rodcrank_decremental(file: &[u8], t: u32, limit: u32, out: &mut [u64; NUMBERS])
    ensures { out.new ≡ decremental_file file.now t limit }
{
    *out = verdict_reply(ask(Question::Decremental, file, t, limit));
}

// The one-shot verdict, in the same way.
#[unsafe(no_mangle)]
pub extern "C" fn rodcrank_one_shot(file: &[u8], t: u32, limit: u32, out: &mut [u64; NUMBERS])
    ensures { out.new ≡ one_shot_file file.now t limit }
{
    *out = verdict_reply(ask(Question::OneShot, file, t, limit));
}

// The dynamic verdict, in the same way.
#[unsafe(no_mangle)]
pub extern "C" fn rodcrank_dynamic(file: &[u8], t: u32, limit: u32, out: &mut [u64; NUMBERS])
    ensures { out.new ≡ dynamic_file file.now t limit }
{
    *out = verdict_reply(ask(Question::Dynamic, file, t, limit));
}

// Whom to put into the next step after a position, given in pairs of step and person, with some people absent in this round, given as the low and
// the high word of a set: a step and a person named, nobody, or "limit"; or refused by 1 to 14.
#[unsafe(no_mangle)]
pub extern "C" fn rodcrank_advice(
    file: &[u8],
    position: &[u8],
    t: u32,
    low: u64,
    high: u64,
    limit: u32,
    out: &mut [u64; NUMBERS],
)
    ensures { out.new ≡ advice_file file.now position.now t (from_words low high) limit }
{
    let p = position_of(position);
    *out = advice_reply(Step(p.len), advise(file, p, t, low, high, limit));
}

// Whom to keep away before the next step after a position, given in pairs: people named, nobody, or "limit"; or refused by 1 to 13.
#[unsafe(no_mangle)]
pub extern "C" fn rodcrank_away(
    file: &[u8],
    position: &[u8],
    t: u32,
    limit: u32,
    out: &mut [u64; NUMBERS],
)
    ensures { out.new ≡ away_file file.now position.now t limit }
{
    let p = position_of(position);
    *out = away_reply(keep_away(file, p, t, limit));
}

// The text of the program `verdicts` for its input: t (2 bytes), limit (4 bytes) and a file. Returns how many bytes the text has; where the buffer
// has fewer, nothing is written.
#[unsafe(no_mangle)]
pub extern "C" fn rodcrank_verdicts(input: &[u8], buffer: &mut [u8]) -> usize
    ensures value { result ≡ length (text_of input.now) }
    ensures buffer_after { buffer.new ≡ filled_with (text_of input.now) buffer.old }
{
    let text = tell(input);
    put_text(text, buffer);
    text.len
}

// The case of a good file.
fn good_case(file: &[u8]) -> Result<GoodCase, Refusal>
    ensures { result_map_both (λ good. good.case) (λ refusal. refusal) result ≡ given (judged_file file.now) (case_of file.now) }
{
    let got = read(file);
    got.judged?;
    Ok(GoodCase { case: got.held })
}

// The plan of a file's case.
fn ask_plan(file: &[u8], limit: u32) -> Result<PlanAnswer, Refusal>
    ensures { result ≡ result_and (judged_file file.now) (plan_call (case_of file.now) limit) }
{
    plan_good(good_case(file)?, limit)
}

// One of the questions about absence.
fn ask(question: Question, file: &[u8], t: u32, limit: u32) -> Result<VerdictAnswer, Refusal>
    ensures { result ≡ result_and (judged_file file.now) (question_call question (case_of file.now) t limit) }
{
    ask_good(question, good_case(file)?, t, limit)
}

// Advice where the absentees fit into a set; somebody past the width is unknown.
fn advise(
    file: &[u8],
    p: Position,
    t: u32,
    low: u64,
    high: u64,
    limit: u32,
) -> Result<AdviceAnswer, Refusal>
    ensures { result ≡ result_and (judged_file file.now) (advised (case_of file.now) (persons p) t (from_words low high) limit) }
{
    let good = good_case(file)?;
    match People::from_words(low, high) {
        Some(absent) => advise_good(good, p, t, absent, limit),
        None => Err(unknown_absent(good, p, t)),
    }
}

// The refusal of advice with an unknown absentee: 14, unless something is met that comes before it. That is what away is refused by; no trial is made.
fn unknown_absent(good: GoodCase, p: Position, t: u32) -> Refusal
    ensures { result ≡ unknown_absent (judged_away good.case (persons p) t) }
{
    match away_good(good, p, t, 0) {
        Ok(_) => Refusal {
            number: 14,
            place: 0,
        },
        Err(refusal) => refusal,
    }
}

// Whom to keep away.
fn keep_away(file: &[u8], p: Position, t: u32, limit: u32) -> Result<AwayAnswer, Refusal>
    ensures { result ≡ result_and (judged_file file.now) (away_call (case_of file.now) (persons p) t limit) }
{
    away_good(good_case(file)?, p, t, limit)
}

// Puts a text into a buffer, where it fits.
fn put_text(text: Text, buffer: &mut [u8])
    requires { text.len ≤ length text.bytes }
    ensures { buffer.new ≡ filled_with (take text.len text.bytes) buffer.old }
{
    let n = text.len;
    if buffer.len() < n {
        return;
    }
    let bytes = text.bytes;
    buffer[..n].copy_from_slice(&bytes[..n]);
}
