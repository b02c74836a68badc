// Where everyone who fits is judged alike, one judging tells the answer for the whole line. Sums are made in 64 bits, where they fit.
ghost use Rattle.std.specs.Prelude.{◌≡◌};
ghost use Rattle.sets.specs.Stored.{number};
ghost use Rattle.games.specs.Limit.{cut};
ghost use Rattle.tries.specs.Outcomes.{verdict_outcome};
ghost use Rattle.tries.specs.Alike.{all_spent, spent_outcome, member_at, all_bad, good_from};

use crate::{Line, Verdict};
use sets::People;

// The trials used when the whole line is tried, where the judging of each who fits takes `more` trials, and none ends the search; nothing where they
// are more than the limit.
pub fn rest_alike(line: Line, used: u32, more: u32, limit: u32) -> Option<u32>
    ensures { spent_outcome result ≡ all_spent (number line.tried) (number line.fit) used more limit }
{
    let tried = line.tried.size() as u64;
    let fit = line.fit.size() as u64;
    let all = (used as u64) + (tried + fit * (more as u64));
    if (limit as u64) < all {
        return None;
    }
    Some(all as u32)
}

// In the dynamic walk everyone who fits is bad, after `more` trials each: nobody is shown.
pub fn all_bad(line: Line, more: u32, limit: u32) -> Verdict
    ensures { verdict_outcome limit result ≡ cut limit (all_bad (number line.tried) (number line.fit) more) }
{
    match rest_alike(line, 0, more, limit) {
        None => Verdict::Limit,
        Some(all) => Verdict::No(People::none(), all),
    }
}

// In the dynamic walk everyone who fits is good, after `more` trials each: where they are at most t they are shown, and else the one with t of them
// before is the last to be tried.
pub fn all_good(line: Line, t: u32, more: u32, limit: u32) -> Verdict
    ensures { verdict_outcome limit result ≡ cut limit (good_from (number line.tried) (number line.fit) 0 t more) }
{
    let fit = line.fit;
    if fit.size() <= t {
        return match rest_alike(line, 0, more, limit) {
            None => Verdict::Limit,
            Some(all) => Verdict::No(fit, all),
        };
    }
    let last = member_at(fit, t);
    let passed = line.tried.before(last) as u64;
    let all = (passed + 1) + ((t as u64) + 1) * (more as u64);
    if (limit as u64) < all {
        return Verdict::Limit;
    }
    Verdict::Yes(all as u32)
}

// The member of a set with k members before it; 0 where there is none, as the definition has it: it is asked for only where there is one.
fn member_at(set: People, k: u32) -> u8
    ensures { result ≡ member_at (number set) k }
{
    let mut rest = set;
    let mut before = k;
    while let Some(v) = rest.lowest() {
        if before == 0 {
            return v;
        }
        before -= 1;
        rest = rest.without(v);
    }
    0
}
