// What all searches share: the answers, and the lines of people at a position. It knows the board, and no search.
//
// A position's people are lined up once: those who cost a trial, and among them those with whom every rule holds. Each turn of a loop then goes
// straight to the next person worth a try, and counts those passed over, each a trial, without looking at them.
#![tactic(auto)]

mod choice;
mod everyone;

ghost use Rattle.std.specs.Prelude.{◌≡◌, ◌≤◌};
ghost use Rattle.sets.specs.Sets.{after, difference};
ghost use Rattle.sets.specs.Stored.{width, number};
ghost use Rattle.tries.specs.Trying.{try_outcome, tried, step_on, several_on, LinedUp};

use boards::{PLACES, allowed, fitting, ready};
use cases::{Case, Filled, Person, Step};
pub use choice::lines_up;
pub use everyone::{all_bad, all_good, rest_alike};
pub use lines::Try;
use sets::{People, lowest_in};

// How a search for a plan ended.
#[derive(Clone, Copy)]
pub enum PlanEnd {
    Limit,
    No(u32),
    Yes(u32),
}

// Where the end is yes, `plan` is the plan. `looked` are the filled steps whose people were looked at: who fills the others makes no difference. `met` are
// the people who were asked for: whether the others are away makes no difference.
#[derive(Clone, Copy)]
pub struct Planned {
    pub end: PlanEnd,
    pub plan: Filled,
    pub looked: u8,
    pub met: People,
}

// A verdict with its trials; a no shows a set.
#[derive(Clone, Copy)]
pub enum Verdict {
    Limit,
    Yes(u32),
    No(People, u32),
}

// What a walk or a line-up tells, and the filled steps whose people were looked at to tell it.
#[derive(Clone, Copy)]
pub struct Looked<T> {
    pub value: T,
    pub looked: u8,
}

// Advice with its trials: a step, and who does it.
#[derive(Clone, Copy)]
pub enum Advised {
    Limit,
    Nobody(u32),
    Move(Step, Person, u32),
}

// A turn of the desk, with its trials: beaten, or not.
#[derive(Clone, Copy)]
pub enum Turn {
    Limit,
    Beaten(u32),
    Holds(u32),
}

// The people still to be tried at a position: each of `tried` costs a trial, and with those of `fit`, who are among them, every rule holds.
#[derive(Clone, Copy)]
pub struct Line {
    pub tried: People,
    pub fit: People,
}

// The lowest step that is ready, 32 where none is: a number, since `step_on` and the clauses on lines speak of it so.
pub fn next_step(board: &[u32; PLACES], p: Filled) -> Step
    ensures { result.0 ≡ step_on board.now p }
{
    Step(lowest_in(ready(board, p) as u32).unwrap_or(32))
}

// Is more than one step ready?
pub fn several(board: &[u32; PLACES], p: Filled) -> bool
    ensures { result ≡ several_on board.now p }
{
    let ready = ready(board, p) as u32;
    match lowest_in(ready) {
        None => false,
        Some(s) => sets::without(ready, s) != 0,
    }
}

// The line at a position, for the step that is ready, with some people away. Where no step is ready nobody is in line. Words and people stay two parameters,
// here and in `lines_up`: the contract holds for every number of people, and a `Board` has at most 32.
pub fn line_up(
    board: &[u32; PLACES],
    people: u8,
    absent: People,
    p: Filled,
    step: Step,
) -> Looked<Line>
    requires { step.0 ≡ step_on board.now p }
    ensures { LinedUp board.now people (number absent) p result }
{
    let at = step.0;
    if Case::STEPS <= (at as usize) {
        return Looked {
            value: Line {
                tried: People::none(),
                fit: People::none(),
            },
            looked: 0,
        };
    }
    let tried = allowed(board, step)
        .difference(absent)
        .common(People::everybody(people));
    let fitted = fitting(board, p, step, tried);
    Looked {
        value: Line {
            tried,
            fit: fitted.people,
        },
        looked: fitted.looked,
    }
}

// The next person worth a try, where `used` trials were used before, within the limit: a clause, since a search keeps `used` as a number that grows beside a
// limit that stays.
pub fn next_try(line: Line, used: u32, limit: u32) -> Try<Person>
    requires { used ≤ limit }
    ensures { try_outcome result ≡ tried (number line.tried) (number line.fit) used limit }
{
    match line.fit.lowest() {
        None => {
            let trials = line.tried.size();
            if limit - used < trials {
                return Try::Limit;
            }
            Try::Nobody(used + trials)
        }
        Some(v) => {
            let passed = line.tried.before(v);
            if limit - used <= passed {
                return Try::Limit;
            }
            Try::Move(Person(v), used + passed + 1)
        }
    }
}

// The line behind a person.
pub fn behind(line: Line, v: Person) -> Line
    ensures { (number result.tried ≡ after width (number line.tried) v.0) × (number result.fit ≡ after width (number line.fit) v.0) }
{
    Line {
        tried: line.tried.after(v.0),
        fit: line.fit.after(v.0),
    }
}

// Those of the line up to a person.
pub fn up_to(line: Line, v: Person) -> People
    ensures { number result ≡ difference width (number line.tried) (after width (number line.tried) v.0) }
{
    line.tried.difference(line.tried.after(v.0))
}

// The line without some people.
pub fn without(line: Line, away: People) -> Line
    ensures { (number result.tried ≡ difference width (number line.tried) (number away)) × (number result.fit ≡ difference width (number line.fit) (number away)) }
{
    Line {
        tried: line.tried.difference(away),
        fit: line.fit.difference(away),
    }
}
