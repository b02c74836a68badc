// The archive for C: the nine functions of the library `rodcrank`, exported under their names. Each calls the library's function of the same name and
// promises what that promises, clause for clause; other-languages/rodcrank.h declares them.
#![tactic(auto)]

ghost use Rattle.std.specs.Prelude.{◌≡◌, length};
ghost use Rattle.sets.specs.Stored.{from_words};
ghost use Rattle.telling.specs.Telling.{text_of};
ghost use Rattle.rodcrank.specs.Calls.{judge_file, plan_file, static_file, decremental_file, one_shot_file, dynamic_file, advice_file, away_file, filled_with};

use rodcrank::NUMBERS;

// Is the file good? Yes, or refused by 1 to 11.
#[unsafe(no_mangle)]
pub extern "C" fn rodcrank_judge(file: &[u8], out: &mut [u64; NUMBERS])
    ensures { out.new ≡ judge_file file.now }
{
    rodcrank::rodcrank_judge(file, out);
}

// Is there a plan? Yes with the first plan, no, or "limit"; or refused by 1 to 11.
#[unsafe(no_mangle)]
pub extern "C" fn rodcrank_plan(file: &[u8], limit: u32, out: &mut [u64; NUMBERS])
    ensures { out.new ≡ plan_file file.now limit }
{
    rodcrank::rodcrank_plan(file, limit, out);
}

// The static verdict: yes, no with the set shown, or "limit"; or refused by 1 to 12.
#[unsafe(no_mangle)]
pub extern "C" fn rodcrank_static(file: &[u8], t: u32, limit: u32, out: &mut [u64; NUMBERS])
    ensures { out.new ≡ static_file file.now t limit }
{
    rodcrank::rodcrank_static(file, t, limit, out);
}

// The decremental verdict, in the same way.
#[unsafe(no_mangle)]
pub extern "C" fn rodcrank_decremental(file: &[u8], t: u32, limit: u32, out: &mut [u64; NUMBERS])
    ensures { out.new ≡ decremental_file file.now t limit }
{
    rodcrank::rodcrank_decremental(file, t, limit, out);
}

// The one-shot verdict, in the same way.
#[unsafe(no_mangle)]
pub extern "C" fn rodcrank_one_shot(file: &[u8], t: u32, limit: u32, out: &mut [u64; NUMBERS])
    ensures { out.new ≡ one_shot_file file.now t limit }
{
    rodcrank::rodcrank_one_shot(file, t, limit, out);
}

// The dynamic verdict, in the same way.
#[unsafe(no_mangle)]
pub extern "C" fn rodcrank_dynamic(file: &[u8], t: u32, limit: u32, out: &mut [u64; NUMBERS])
    ensures { out.new ≡ dynamic_file file.now t limit }
{
    rodcrank::rodcrank_dynamic(file, t, limit, out);
}

// Whom to put into the next step after a position, given in pairs of step and person, with some people absent in this round, given as the low and
// the high word of a set: a step and a person named, nobody, or "limit"; or refused by 1 to 14.
#[unsafe(no_mangle)]
pub extern "C" fn rodcrank_advice(
    file: &[u8],
    position: &[u8],
    t: u32,
    low: u64,
    high: u64,
    limit: u32,
    out: &mut [u64; NUMBERS],
)
    ensures { out.new ≡ advice_file file.now position.now t (from_words low high) limit }
{
    rodcrank::rodcrank_advice(file, position, t, low, high, limit, out);
}

// Whom to keep away before the next step after a position, given in pairs: people named, nobody, or "limit"; or refused by 1 to 13.
#[unsafe(no_mangle)]
pub extern "C" fn rodcrank_away(
    file: &[u8],
    position: &[u8],
    t: u32,
    limit: u32,
    out: &mut [u64; NUMBERS],
)
    ensures { out.new ≡ away_file file.now position.now t limit }
{
    rodcrank::rodcrank_away(file, position, t, limit, out);
}

// The text of the program `verdicts` for its input: t (2 bytes), limit (4 bytes) and a file. Returns how many bytes the text has; where the buffer
// has fewer, nothing is written.
#[unsafe(no_mangle)]
pub extern "C" fn rodcrank_verdicts(input: &[u8], buffer: &mut [u8]) -> usize
    ensures value { result ≡ length (text_of input.now) }
    ensures buffer_after { buffer.new ≡ filled_with (text_of input.now) buffer.old }
{
    rodcrank::rodcrank_verdicts(input, buffer)
}
