// The case file: judged, read, and handed out in parts. It writes nothing and knows nothing of searches.
//
// Reading is total: past the end of a part every entry is zero. So a file with a right header is read first, and 7 to 11 are judged on the case that
// was read, by the one judge that cases in memory have.
#![tactic(auto)]

ghost use Rattle.std.specs.Prelude.{◌≡◌, ◌≤◌, length};
ghost use Rattle.refusals.specs.Offsets.{total_of};
ghost use Rattle.layout.specs.Layout.{start_of, end_of};
ghost use Rattle.files.specs.Checks.{judged_file};
ghost use Rattle.files.specs.Reading.{read_of, refused_read};
ghost use Rattle.files.specs.Parts.{seen, between, nothing_of, part_of};

use cases::{Case, Counts};
use entries::case_at;
use headers::{counts, judge_header};
use judging::judge_case;
use layout::{Part, end, start};
use refusals::Refusal;

// What reading a file gives: how it is judged, and the case that it holds, which is the empty case where it is refused. No `Result` of the case: the
// definition `read_of` and the theorems on it speak of the case that a refused read holds.
#[derive(Clone, Copy)]
pub struct FileRead {
    pub judged: Result<(), Refusal>,
    pub held: Case,
}

// Is the file good? If not, the lowest number of 1 to 11 that it meets, at the earliest entry.
pub fn judge(file: &[u8]) -> Result<(), Refusal>
    ensures { result ≡ judged_file file.now }
{
    read(file).judged
}

// The case that a file holds, with zero above its counts; or its refusal, with the empty case.
pub fn read(file: &[u8]) -> FileRead
    ensures { result ≡ read_of file.now }
{
    // No case goes through a `Result` of its own here, since a case is a thousand bytes to copy.
    let head = judge_header(file);
    let Ok(()) = head else {
        return refused(head);
    };
    let held = case_at(file, counts(file));
    let judged = judge_case(held);
    let Ok(()) = judged else {
        return refused(judged);
    };
    FileRead { judged, held }
}

fn refused(judged: Result<(), Refusal>) -> FileRead
    ensures { result ≡ refused_read judged }
{
    FileRead {
        judged,
        held: Case::empty(),
    }
}

// A part of a good file, as the caller's own bytes. A refused file gives an empty part; `judge` tells why.
pub fn part_of(file: &[u8], part: Part) -> &[u8]
    ensures { seen result ≡ part_of (seen file.entry) part }
{
    match judge(file) {
        Ok(()) => part_at(file, counts(file), part),
        Err(_) => no_part(file),
    }
}

// A part, by counts that the file has room for.
fn part_at(file: &[u8], n: Counts, part: Part) -> &[u8]
    requires { total_of n ≤ length file.now }
    ensures { seen result ≡ between (seen file.entry) (start_of n part) (end_of n part) }
{
    let a = start(n, part);
    let b = end(n, part);
    &file[a..b]
}

// An empty part.
fn no_part(file: &[u8]) -> &[u8]
    ensures { seen result ≡ nothing_of (seen file.entry) }
{
    &file[..0]
}
