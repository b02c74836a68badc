// Answers compared, and the first difference printed with the file.
use crate::counts::{Asked, Tally};
use second::Answer;
use second_files::File;
use std::io;

// Counts a call, and tells a difference.
pub fn compare(
    rt: &impl Print,
    tally: &mut Tally,
    file: &File,
    asked: Asked,
    ours: Answer,
    theirs: Answer,
) -> io::Result<()> {
    tally.count_call(asked, ours);
    if ours != theirs && is_first(rt, tally, file, asked)? {
        println!(rt; "second search {ours}")?;
        println!(rt; "planner {theirs}")?;
    }
    Ok(())
}

// What must hold besides the answers: bytes that stay, cases that come back, games that end well, texts and numbers that are the same, and that who
// wins a harder game wins an easier one.
pub fn expect(
    rt: &impl Print,
    tally: &mut Tally,
    file: &File,
    asked: Asked,
    holds: bool,
) -> io::Result<()> {
    if !holds {
        is_first(rt, tally, file, asked)?;
    }
    Ok(())
}

// Counts a difference. Is it the first? Then the question and the file are printed.
pub fn is_first(rt: &impl Print, tally: &mut Tally, file: &File, asked: Asked) -> io::Result<bool> {
    tally.differences.more();
    if tally.differences.number() != 1 {
        return Ok(false);
    }
    println!(rt; "difference at question {asked}")?;
    print!(rt; "file ")?;
    for x in file.lent() {
        print!(rt; "{x:02x}")?;
    }
    println!(rt)?;
    Ok(true)
}
