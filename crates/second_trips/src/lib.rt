// Parts, writes that are refused, and round trips, compared. Nothing is promised here but safety.
#![tactic(auto)]

use cases::Case;
use layout::Part;
use second::Answer;
use second_calls::ask_write;
use second_draws::Chance;
use second_files::{File, ROOM, Reason, first};
use second_memory::case_of;
use second_tally::{Asked, Tally, compare, expect};
use std::io;

// What stands in a lent buffer before a write.
const MARK: u8 = 165;

// The four parts: the file's own stretches where it is good, else empty.
pub fn try_parts(rt: &impl Print, tally: &mut Tally, file: &File, good: bool) -> io::Result<()> {
    let steps = file.step_at(0);
    let rows = file.row_at(0);
    let rules = file.rule_at(0);
    let parts = [
        (Asked::PeoplePart, Part::People, 24, steps),
        (Asked::StepsPart, Part::Steps, steps, rows),
        (Asked::TablesPart, Part::Tables, rows, rules),
        (Asked::RulesPart, Part::Rules, rules, file.total()),
    ];
    for (asked, part, from, to) in parts {
        let same = stretch(file, good, from, to) == files::part_of(file.lent(), part);
        expect(rt, tally, file, asked, same)?;
    }
    Ok(())
}

// A stretch of a good file, or nothing.
fn stretch(file: &File, good: bool, from: usize, to: usize) -> &[u8] {
    match file.bytes.get(from..to) {
        Some(bytes) if good => bytes,
        _ => b"",
    }
}

// A case that is refused is refused into any buffer, also one that is too short, and leaves every byte.
pub fn try_refused_write(
    rt: &impl Print,
    tally: &mut Tally,
    file: &File,
    case: Case,
    ours: Answer,
) -> io::Result<()> {
    let mut buffer = [MARK; ROOM];
    let theirs = ask_write(case, &mut buffer);
    compare(rt, tally, file, Asked::Writing, ours, theirs)?;
    let short = ask_write(case, &mut buffer[0..10]);
    compare(rt, tally, file, Asked::Writing, ours, short)?;
    expect(rt, tally, file, Asked::Writing, is_marked(&buffer))
}

// Do all bytes have the mark?
fn is_marked(bytes: &[u8]) -> bool {
    bytes.iter().all(|x| *x == MARK)
}

// A good file read and written again: the same bytes, and the rest of the buffer stays.
pub fn try_from_file(
    rt: &impl Print,
    tally: &mut Tally,
    file: &File,
    held: Case,
) -> io::Result<()> {
    tally.trips_from_file.more();
    let mut buffer = [MARK; ROOM];
    let theirs = ask_write(held, &mut buffer);
    let ours = Answer::Yes {
        shown: file.length,
        trials: 0,
    };
    compare(rt, tally, file, Asked::Writing, ours, theirs)?;
    let rest = buffer.strip_prefix(file.lent());
    expect(
        rt,
        tally,
        file,
        Asked::FileAgain,
        rest.is_some_and(is_marked),
    )
}

// A case in memory with junk above its counts, written and read again: the same case, with zero above its counts.
pub fn try_from_memory(
    rt: &impl Print,
    chance: &mut Chance,
    tally: &mut Tally,
    file: &File,
) -> io::Result<()> {
    tally.trips_from_memory.more();
    let full = case_of(chance, file, 4294967296);
    let plain = case_of(chance, file, 1);
    let mut buffer = [MARK; ROOM];
    // The bytes tell how it went.
    let _ = writing::write(full, &mut buffer);
    let held = files::read(first(&buffer, file.length)).held;
    expect(rt, tally, file, Asked::CaseAgain, held == plain)
}

// A buffer that is too short: turned away, and every byte stays.
pub fn try_short(
    rt: &impl Print,
    chance: &mut Chance,
    tally: &mut Tally,
    file: &File,
    held: Case,
) -> io::Result<()> {
    let mut buffer = [MARK; ROOM];
    let room = chance.below(file.length);
    if let Some(short) = buffer.get_mut(..room) {
        let theirs = ask_write(held, short);
        let ours = Answer::Refused(Reason::Room.at(0));
        compare(rt, tally, file, Asked::Writing, ours, theirs)?;
        expect(rt, tally, file, Asked::Writing, is_marked(&buffer))?;
    }
    Ok(())
}
