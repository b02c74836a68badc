// A position as bytes, in pairs of step and person.
ghost use Rattle.std.specs.Prelude.{◌≡◌, take};
ghost use Rattle.cases.specs.Case.{most_steps};
ghost use Rattle.cases.specs.Positions.{persons};
ghost use Rattle.replies.specs.Pairs.{person_in, persons_in};

use cases::{Case, Person, Position};

// A number that no person of a case has. It stands for nobody known, as the definition `unknown` has it, so that a bad pair is judged like any other.
const UNKNOWN: u8 = 255;

// The first 8 entries as a position. A longer one is turned away by 13 whatever it holds, and so are these 8.
pub fn position_of(bytes: &[u8]) -> Position
    ensures { persons result ≡ take most_steps (persons_in bytes.now) }
{
    let mut p = Position::start();
    for i in 0..Case::STEPS as u8 {
        if bytes.len() < 2 * (i as usize) + 1 {
            return p;
        }
        p = p.placed(person_in(bytes, i));
    }
    p
}

// The person of entry i: unknown where the pair is of another step, or is a last byte alone.
fn person_in(bytes: &[u8], i: u8) -> Person
    ensures { result.0 ≡ person_in bytes.now i }
{
    let at = 2 * (i as usize);
    if bytes.len() <= at + 1 {
        return Person(UNKNOWN);
    }
    if bytes[at] != i {
        return Person(UNKNOWN);
    }
    Person(bytes[at + 1])
}
