// Judging the header of a file: its counts, and 1 to 6. It knows where the parts stand by the counts, and reads none of them.
#![tactic(auto)]

ghost use Rattle.std.specs.Prelude.{◌≡◌};
ghost use Rattle.refusals.specs.Refusals.{judged_by};
ghost use Rattle.words.specs.Word.{word};
ghost use Rattle.layout.specs.Layout.{counts_of};
ghost use Rattle.headers.specs.Checks.{misplaced, head_checks};

use cases::Counts;
use judging::too_many;
use layout::{rules_at, steps_at, tables_at, total};
use refusals::{Refusal, refused_if};
use words::word_at;

// The counts that a file states.
pub fn counts(file: &[u8]) -> Counts
    ensures { result ≡ counts_of file.now }
{
    Counts {
        people: word_at(file, 2),
        steps: word_at(file, 4),
        roles: word_at(file, 6),
        tables: word_at(file, 8),
        rules: word_at(file, 10),
    }
}

// The lowest number of 1 to 6 that a file meets. No offset is computed from counts above their limits.
pub fn judge_header(file: &[u8]) -> Result<(), Refusal>
    ensures { result ≡ judged_by (head_checks file.now) }
{
    refused_if(file.len() < 24, 1, 0)?;
    refused_if(word_at(file, 0) != 1, 2, 0)?;
    refused_if(word_at(file, 22) != 0, 3, 0)?;
    let n = counts(file);
    refused_if(too_many(n), 4, 0)?;
    refused_if(is_misplaced(file, n), 5, 0)?;
    refused_if(file.len() != offset(file, 20), 6, 0)
}

// Is an offset or the total not what the counts give?
fn is_misplaced(file: &[u8], n: Counts) -> bool
    ensures { result ≡ misplaced file.now n }
{
    offset(file, 12) != 24
        || offset(file, 14) != steps_at(n)
        || offset(file, 16) != tables_at(n)
        || offset(file, 18) != rules_at(n)
        || offset(file, 20) != total(n)
}

// A header number as an offset.
fn offset(file: &[u8], at: usize) -> usize
    ensures { result ≡ word file.now at }
{
    word_at(file, at) as usize
}
