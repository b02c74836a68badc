// Tries the program's text: the campfire under several absence numbers and limits, every refusal from 1 to 12, the edges of a case, and inputs that
// are too short or too long. Before each text stands the name of the try.
#![tactic(auto)]

use samples::{Made, campfire, first, largest, nobody, related};
use std::io;
use telling::tell;
use words::{put_long, put_word};

// Before the file stand t and the limit.
const HEAD: usize = 6;

// An input with the longest file that is made.
type Input = [u8; 1106];

fn main(rt: HostRuntime) -> io::Result<()> {
    finished(&rt)?;
    stopped(&rt)?;
    refused(&rt)?;
    edges(&rt)?;
    lengths(&rt)
}

fn finished(rt: &impl Print) -> io::Result<()> {
    let fire = campfire();
    show(rt, "t 0", fire, 0, 1000)?;
    show(rt, "t 1", fire, 1, 1000)?;
    show(rt, "t 2", fire, 2, 1000)?;
    show(rt, "t 32, the highest limit", fire, 32, u32::MAX)?;
    show(rt, "a table", related(), 1, 1000)
}

// Each question under its own trials, and under one less.
fn stopped(rt: &impl Print) -> io::Result<()> {
    let fire = campfire();
    for (name, t, limit) in [
        ("limit 0", 1, 0),
        ("limit 1", 1, 1),
        ("limit 2", 1, 2),
        ("limit 5", 1, 5),
        ("limit 6", 1, 6),
        ("limit 8", 1, 8),
        ("limit 9", 1, 9),
        ("limit 11", 1, 11),
        ("limit 12", 1, 12),
        ("limit 14", 1, 14),
        ("limit 15", 1, 15),
        ("t 2, limit 7", 2, 7),
        ("t 2, limit 15", 2, 15),
        ("t 2, limit 17", 2, 17),
        ("t 2, limit 18", 2, 18),
    ] {
        show(rt, name, fire, t, limit)?;
    }
    Ok(())
}

fn refused(rt: &impl Print) -> io::Result<()> {
    let fire = campfire();
    for (name, file) in [
        ("1", fire.long(23)),
        ("2", fire.word(0, 2)),
        ("3", fire.word(22, 1)),
        ("4", fire.word(2, 33)),
        ("5", fire.word(14, 31)),
        ("6", fire.long(43)),
        ("7", fire.byte(26, 7)),
        ("8", fire.byte(34, 4)),
        ("9", fire.byte(36, 2)),
        ("10", related().byte(42, 8)),
        ("11", fire.byte(38, 4)),
    ] {
        show(rt, name, file, 1, 1000)?;
    }
    show(rt, "12", fire, 33, 1000)?;
    show(rt, "11 before 12", fire.byte(38, 4), 33, 1000)?;
    show(rt, "12 at limit 0", fire, 65535, 0)
}

fn edges(rt: &impl Print) -> io::Result<()> {
    let none = nobody();
    show(rt, "no steps", none, 0, 0)?;
    show(rt, "no steps, t 32", none, 32, 1000)?;
    show(rt, "no people, one step", alone(), 0, 1000)?;
    show(rt, "no people, one step, limit 0", alone(), 3, 0)?;
    show(rt, "32 people", largest(), 0, 1000)?;
    let eight = largest().each(24, 16, 1).each(88, 8, 1);
    show(rt, "eight steps", eight, 0, 1000)?;
    show(rt, "a crowd, t 31", crowd(), 31, 1000)?;
    show(rt, "a crowd, t 32", crowd(), 32, 1000)?;
    show(rt, "33 people", largest().word(2, 33), 0, 1000)
}

// One step and nobody to do it.
fn alone() -> Made {
    nobody()
        .word(4, 1)
        .word(16, 28)
        .word(18, 28)
        .word(20, 28)
        .long(28)
}

// One step, and 32 people who may do it.
fn crowd() -> Made {
    let counted = nobody().word(2, 32).word(4, 1).word(6, 1);
    let placed = counted
        .word(14, 88)
        .word(16, 92)
        .word(18, 92)
        .word(20, 92)
        .long(92);
    placed.each(24, 16, 1).each(26, 16, 1).byte(88, 1)
}

fn lengths(rt: &impl Print) -> io::Result<()> {
    let fire = campfire();
    for (name, file, len) in [
        ("no bytes", fire, 0),
        ("1 byte", fire, 1),
        ("5 bytes", fire, 5),
        ("6 bytes", fire, 6),
        ("29 bytes", fire, 29),
        ("30 bytes", fire, 30),
        ("47 bytes", fire, 47),
        ("49 bytes", fire, 49),
        ("longer than any case", fire, 1100),
        ("longer than any case, edition 2", fire.word(0, 2), 1100),
    ] {
        show_text(rt, name, first(&input_of(file, 1, 1000), len))?;
    }
    let longer = largest().long(1017);
    show(rt, "a byte after the longest case", longer, 0, 1000)
}

// A try: its name, and the text for this file under t and limit.
fn show(rt: &impl Print, name: &str, file: Made, t: u16, limit: u32) -> io::Result<()> {
    let input = input_of(file, t, limit);
    show_text(rt, name, first(&input, HEAD.saturating_add(file.len())))
}

// t, limit and the file, with all the bytes that it has room for.
fn input_of(file: Made, t: u16, limit: u32) -> Input {
    let mut input: Input = [0; 1106];
    put_word(&mut input, 0, t);
    put_long(&mut input, 2, limit);
    input[HEAD..].copy_from_slice(&file.data());
    input
}

fn show_text(rt: &impl Print, name: &str, input: &[u8]) -> io::Result<()> {
    println!(rt; "{name}:")?;
    let text = tell(input);
    rt.write_all(first(&text.bytes, text.len))
}
