// The program: reads t, limit and a case from standard input, and writes the verdicts to standard output.
#![tactic(auto)]

use reading::read_full;
use std::io;
use telling::tell;

// t and limit, the longest file, and one byte more: of a longer input no other byte is looked at (theorem `more-is-the-same` of `telling`).
const MOST: usize = 6 + 1016 + 1;

fn main(rt: HostRuntime) -> io::Result<()> {
    let mut input = [0u8; MOST];
    let n = read_full(&mut rt.stdin(), &mut input)?;
    let text = tell(&input[..n]);
    let bytes = text.bytes;
    let len = text.len;
    rt.write_all(&bytes[..len])
}
