// Lines about a write. Before it every byte of the buffer is 238.
use cases::Case;
use files::{judge, read};
use refusals::Refusal;
use samples::{Made, first};
use std::io;
use writing::write;

const BEFORE: u8 = 238;

// The case that a file holds; the empty case where it is refused.
pub fn held(file: Made) -> Case {
    read(file.bytes()).held
}

// A file, read and written again.
pub fn again(rt: &impl Print, name: &str, file: Made, room: usize) -> io::Result<()> {
    show(rt, name, held(file), file, room)
}

// A case, written into a buffer with this room. `file` is what good ones should come to.
pub fn show(rt: &impl Print, name: &str, case: Case, file: Made, room: usize) -> io::Result<()> {
    let mut buffer = [BEFORE; 1100];
    let answer = write_first(case, &mut buffer, room);
    print!(rt; "{name}: ")?;
    match answer {
        Ok(n) => print!(rt; "wrote {n}")?,
        Err(why) => print!(rt; "refused {} at {}", why.number, why.place)?,
    }
    show_left(rt, answer, &buffer, file.bytes())
}

// Writes into the first `room` bytes.
fn write_first(case: Case, buffer: &mut [u8], room: usize) -> Result<u16, Refusal> {
    let room = room.min(buffer.len());
    write(case, &mut buffer[..room])
}

// What the buffer holds: how many bytes of the front are the file's, how many of the last bytes are as they were, and whether what was written is
// judged good.
fn show_left(
    rt: &impl Print,
    answer: Result<u16, Refusal>,
    buffer: &[u8],
    file: &[u8],
) -> io::Result<()> {
    print!(rt;
        "; like the file {}; untouched {}",
        alike(buffer, file),
        untouched(buffer)
    )?;
    match answer.map(|n| judge(first(buffer, n as usize))) {
        Ok(Ok(())) => println!(rt; "; good"),
        Ok(Err(_)) => println!(rt; "; refused"),
        Err(_) => println!(rt;),
    }
}

// How many bytes two slices have in common at the front.
fn alike(a: &[u8], b: &[u8]) -> usize {
    a.iter().zip(b).take_while(|(x, y)| x == y).count()
}

// How many bytes at the end are as before.
fn untouched(buffer: &[u8]) -> usize {
    buffer.iter().rev().take_while(|b| **b == BEFORE).count()
}
