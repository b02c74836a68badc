// The program's text compared, byte for byte, with one written a second time from the second search's own answers; and the exported function that
// puts it into a buffer. Nothing is promised here but safety.
#![tactic(auto)]

use rodcrank::rodcrank_verdicts;
use second::{Answer, Five, MOST_TRIALS, Question};
use second_draws::Chance;
use second_files::{File, ROOM, Reason, Turned, first, minus, plus};
use second_lines::{Lines, TEXT};
use second_tally::{Asked, Function, Tally, is_first};
use std::io;
use telling::tell;

// What stands in a lent array before a call.
const MARK: u8 = 165;

// Room for t, the limit and a file.
pub const INPUT: usize = 6 + ROOM;

// A good case with its answers: the seven lines, at a limit by chance; and the refusal of a t above 32.
pub fn try_text(
    rt: &impl Print,
    chance: &mut Chance,
    tally: &mut Tally,
    file: &File,
    t: usize,
    five: Five,
) -> io::Result<()> {
    let limit = limit_for(chance, five);
    tally.texts.more();
    tally.count_exported(Function::Verdicts, Answer::from(Ok(())));
    let n = plus(6, file.length);
    let input = input_of(file, t, limit);
    let lines = lines_of(file, t, limit, five);
    try_input(rt, chance, tally, file, first(&input, n), &lines)?;
    let input = input_of(file, chance.from_to(33, 65535), limit);
    let above = Reason::Absentees.at(0);
    try_refused_text(rt, chance, tally, file, first(&input, n), above)
}

// The seven lines.
fn lines_of(file: &File, t: usize, limit: usize, five: Five) -> Lines {
    let mut lines = Lines::none();
    lines.put_case(file);
    lines.put_asked(t, limit);
    for (question, answer) in Question::ALL.iter().zip(&five.all()) {
        lines.put_answer(*question, file.steps(), answer.within(limit));
    }
    lines
}

// A limit: the exact count of one of the answers, one below, or the largest; and never a long walk.
fn limit_for(chance: &mut Chance, five: Five) -> usize {
    let answer = match chance.below(5) {
        0 => five.plan,
        1 => five.fixed,
        2 => five.growing,
        3 => five.struck,
        _ => five.changing,
    };
    let limit = match chance.below(3) {
        0 => minus(answer.trials(), 1),
        1 => answer.trials(),
        _ => largest(five),
    };
    if MOST_TRIALS < limit && limit < 4294967295 {
        return MOST_TRIALS;
    }
    limit
}

// The largest limit where all walks are short.
fn largest(five: Five) -> usize {
    if five.all().iter().any(|answer| answer.is_long()) {
        MOST_TRIALS
    } else {
        4294967295
    }
}

// An input that is refused: one line.
pub fn try_refused_text(
    rt: &impl Print,
    chance: &mut Chance,
    tally: &mut Tally,
    file: &File,
    input: &[u8],
    turned: Turned,
) -> io::Result<()> {
    let mut lines = Lines::none();
    lines.put_refused(turned);
    tally.refused_texts.more();
    tally.count_exported(Function::Verdicts, Answer::Refused(turned));
    try_input(rt, chance, tally, file, input, &lines)
}

// t in two bytes, the limit in four, and the file.
pub fn input_of(file: &File, t: usize, limit: usize) -> [u8; INPUT] {
    let mut input = [0; INPUT];
    input[0..2].copy_from_slice(&t.to_le_bytes()[0..2]);
    input[2..6].copy_from_slice(&limit.to_le_bytes()[0..4]);
    input[6..].copy_from_slice(&file.bytes);
    input
}

// The text for an input; and the exported function, with a buffer by chance.
fn try_input(
    rt: &impl Print,
    chance: &mut Chance,
    tally: &mut Tally,
    file: &File,
    input: &[u8],
    lines: &Lines,
) -> io::Result<()> {
    let text = lines.as_bytes();
    let told = tell(input);
    let same = told.len == text.len() && is_text(&told.bytes, text, 0);
    expect_text(rt, tally, file, same, text)?;
    let room = room_for(chance, text.len());
    expect_text(rt, tally, file, fills(input, room, text), text)
}

// A buffer's room: as long as the text, a byte shorter, or longer.
fn room_for(chance: &mut Chance, end: usize) -> usize {
    match chance.below(4) {
        0 => end,
        1 => minus(end, 1),
        _ => TEXT,
    }
}

// Does the exported function fill a buffer that is long enough with the text, leave one that is not, and say how long the text is?
fn fills(input: &[u8], room: usize, text: &[u8]) -> bool {
    let mut buffer = [MARK; TEXT];
    let Some(lent) = buffer.get_mut(..room) else {
        return false;
    };
    let length = rodcrank_verdicts(input, lent);
    let filled = if room < text.len() { b"" } else { text };
    length == text.len() && is_text(&buffer, filled, MARK)
}

// Are the bytes the text, with one byte behind it all through?
fn is_text(bytes: &[u8], text: &[u8], behind: u8) -> bool {
    match bytes.strip_prefix(text) {
        Some(rest) => rest.iter().all(|x| *x == behind),
        None => false,
    }
}

// Tells a difference, with the text as it must be.
fn expect_text(
    rt: &impl Print,
    tally: &mut Tally,
    file: &File,
    same: bool,
    text: &[u8],
) -> io::Result<()> {
    if !same && is_first(rt, tally, file, Asked::Text)? {
        rt.write_all(text)?;
    }
    Ok(())
}
