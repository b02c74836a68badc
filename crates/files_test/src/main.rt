// Tries files against `files`: every refusal, its place and its order, files at and past the limits, and the parts handed out. The tries are the
// lines of standard input. For each it writes a line: the try's name, how the file is judged, the counts of the case that is read, and how long the
// four parts are that are handed out.
//
// A line of input makes a file and names it, as in `c 24=4 38=4 | 7 and 11`. The letter says which file it starts from: the campfire, the campfire
// with a relation table, the largest file, or a file with no entries (c, r, l, n). `24=4` puts 4 at byte 24, `24*16=4` puts it at 16 places four
// bytes apart, and `#41` makes the file 41 bytes long. With a capital letter the bytes of the parts are written besides.
#![tactic(auto)]

mod making;
mod shown;

ghost use Rattle.std.specs.Prelude.{◌≤◌, length};

use making::Making;
use reading::read_full;
use shown::{show, show_parts};
use std::io;

fn main(rt: HostRuntime) -> io::Result<()> {
    let mut input = [0u8; 65536];
    let n = read_full(&mut rt.stdin(), &mut input)?;
    tries(&rt, &input[..n])
}

// Goes along what is left of the input, line by line; it counts no index.
fn tries(rt: &impl Print, input: &[u8]) -> io::Result<()> {
    let mut rest = input;
    while !rest.is_empty() {
        let (how, bar_name) = split_at(rest, b'|');
        let (bar_name, end) = split_at(bar_name, b'\n');
        tried(rt, how, bar_name)?;
        rest = end.get(1..).unwrap_or(&[]);
    }
    Ok(())
}

// What stands before the first such mark, and what stands from it on.
fn split_at(s: &[u8], mark: u8) -> (&[u8], &[u8])
    ensures { length result.1.now ≤ length s.now }
{
    let at = s.iter().position(|b| *b == mark).unwrap_or(s.len());
    s.split_at(at)
}

// One try: how the file is made, and its name after a bar and a space.
fn tried(rt: &impl Print, how: &[u8], bar_name: &[u8]) -> io::Result<()> {
    let (Some(letter), Some(name)) = (how.first(), bar_name.get(2..)) else {
        return Ok(());
    };
    let making = how
        .iter()
        .fold(Making::from(*letter), |making, b| making.read(*b));
    let file = making.file();
    show(rt, name, file.bytes())?;
    if *letter < b'a' {
        show_parts(rt, file.bytes())?;
    }
    Ok(())
}
