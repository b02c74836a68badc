// The planner's answers as numbers.
ghost use Rattle.std.specs.Prelude.{◌≡◌, get_or};
ghost use Rattle.sets.specs.Stored.{number};
ghost use Rattle.cases.specs.Positions.{persons};
ghost use Rattle.replies.specs.Replies.{refused_reply, said_reply, shown_reply, plan_reply, verdict_reply, advice_reply, away_reply};
ghost use Rattle.replies.specs.Replies.{reply as reply_numbers};

use cases::{Person, Position, Step};
use planner::{AdviceAnswer, AwayAnswer, PlanAnswer, VerdictAnswer};
use refusals::Refusal;
use sets::People;

// How many numbers an answer has.
pub const NUMBERS: usize = 18;

// What is said, as the numbers that C reads in an answer: other-languages/rodcrank.h names them, so they are no enum.
pub const LIMIT: u64 = 1;

pub const YES: u64 = 2;

pub const NO: u64 = 3;

pub const NOBODY: u64 = 4;

pub const NAMED: u64 = 5;

pub fn plan_reply(answer: Result<PlanAnswer, Refusal>) -> [u64; NUMBERS]
    ensures { result ≡ plan_reply answer }
{
    match answer {
        Err(refusal) => refused(refusal),
        Ok(PlanAnswer::Limit(trials)) => said(LIMIT, trials),
        Ok(PlanAnswer::No(trials)) => said(NO, trials),
        Ok(PlanAnswer::Yes(plan, trials)) => {
            reply(YES, trials, People::none(), Step(0), Person(0), plan)
        }
    }
}

pub fn verdict_reply(answer: Result<VerdictAnswer, Refusal>) -> [u64; NUMBERS]
    ensures { result ≡ verdict_reply answer }
{
    match answer {
        Err(refusal) => refused(refusal),
        Ok(VerdictAnswer::Limit(trials)) => said(LIMIT, trials),
        Ok(VerdictAnswer::Yes(trials)) => said(YES, trials),
        Ok(VerdictAnswer::No(shown, trials)) => show(NO, trials, shown),
    }
}

// Advice on a step.
pub fn advice_reply(step: Step, answer: Result<AdviceAnswer, Refusal>) -> [u64; NUMBERS]
    ensures { result ≡ advice_reply step.0 answer }
{
    match answer {
        Err(refusal) => refused(refusal),
        Ok(AdviceAnswer::Limit(trials)) => said(LIMIT, trials),
        Ok(AdviceAnswer::Nobody(trials)) => said(NOBODY, trials),
        Ok(AdviceAnswer::Person(person, trials)) => {
            reply(
                NAMED,
                trials,
                People::none(),
                step,
                person,
                Position::start(),
            )
        }
    }
}

pub fn away_reply(answer: Result<AwayAnswer, Refusal>) -> [u64; NUMBERS]
    ensures { result ≡ away_reply answer }
{
    match answer {
        Err(refusal) => refused(refusal),
        Ok(AwayAnswer::Limit(trials)) => said(LIMIT, trials),
        Ok(AwayAnswer::Nobody(trials)) => said(NOBODY, trials),
        Ok(AwayAnswer::People(shown, trials)) => show(NAMED, trials, shown),
    }
}

// A refusal: its number and its place, all else 0.
pub fn refused(refusal: Refusal) -> [u64; NUMBERS]
    ensures { result ≡ refused_reply refusal }
{
    let mut out = [0; NUMBERS];
    out[0] = refusal.number as u64;
    out[1] = refusal.place as u64;
    out
}

// Nothing but what is said and its trials.
pub fn said(what: u64, trials: u32) -> [u64; NUMBERS]
    ensures { result ≡ said_reply what trials }
{
    show(what, trials, People::none())
}

// A set of people besides.
fn show(what: u64, trials: u32, shown: People) -> [u64; NUMBERS]
    ensures { result ≡ shown_reply what trials (number shown) }
{
    reply(what, trials, shown, Step(0), Person(0), Position::start())
}

// Everything that an answer can have. There is one way through a case.
fn reply(
    what: u64,
    trials: u32,
    people: People,
    step: Step,
    person: Person,
    plan: Position,
) -> [u64; NUMBERS]
    ensures { result ≡ reply_numbers what trials (number people) step.0 person.0 (persons plan) }
{
    let way = 0;
    [
        0,
        0,
        what,
        trials as u64,
        people.low(),
        people.high(),
        step.0 as u64,
        person.0 as u64,
        way,
        plan.len as u64,
        person_at(plan, 0),
        person_at(plan, 1),
        person_at(plan, 2),
        person_at(plan, 3),
        person_at(plan, 4),
        person_at(plan, 5),
        person_at(plan, 6),
        person_at(plan, 7),
    ]
}

// The number of the person of step i, 0 where it is not filled.
fn person_at(p: Position, i: u8) -> u64
    ensures { result ≡ get_or (persons p) i 0 }
{
    p.person(i).0 as u64
}
