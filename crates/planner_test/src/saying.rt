// Answers, whole, as the end of a line.
use cases::{Person, Position};
use planner::{AdviceAnswer, AwayAnswer, PlanAnswer, VerdictAnswer, plan_shown};
use refusals::Refusal;
use sets::People;
use std::fmt;

// What a call gave.
#[derive(Clone, Copy)]
pub enum Answer {
    Plan(Result<PlanAnswer, Refusal>),
    Verdict(Result<VerdictAnswer, Refusal>),
    Advice(Result<AdviceAnswer, Refusal>),
    Away(Result<AwayAnswer, Refusal>),
}

// A refusal: its number and its place.
#[derive(Clone, Copy)]
struct Refused(Refusal);

// The position that is shown for a plan: its length, and all its entries.
#[derive(Clone, Copy)]
struct Plan(Position);

// A set: its members, ascending.
#[derive(Clone, Copy)]
struct Members(People);

impl fmt::Display for Answer {
    fn fmt<W: fmt::Write>(&self, f: &mut fmt::Formatter<W>) -> fmt::Result {
        match *self {
            Answer::Plan(answer) => {
                write_plan(f, answer)?;
                write!(f, "{}", Plan(plan_shown(answer)))
            }
            Answer::Verdict(Ok(answer)) => write_verdict(f, answer),
            Answer::Advice(Ok(answer)) => write_advice(f, answer),
            Answer::Away(Ok(answer)) => write_away(f, answer),
            Answer::Verdict(Err(why)) | Answer::Advice(Err(why)) | Answer::Away(Err(why)) => {
                write!(f, "{}", Refused(why))
            }
        }
    }
}

fn write_plan<W: fmt::Write>(
    f: &mut fmt::Formatter<W>,
    answer: Result<PlanAnswer, Refusal>,
) -> fmt::Result {
    match answer {
        Ok(PlanAnswer::Limit(n)) => write!(f, ": limit trials {n}"),
        Ok(PlanAnswer::No(n)) => write!(f, ": no trials {n}"),
        Ok(PlanAnswer::Yes(_, n)) => write!(f, ": yes trials {n}"),
        Err(why) => write!(f, "{}", Refused(why)),
    }
}

fn write_verdict<W: fmt::Write>(f: &mut fmt::Formatter<W>, answer: VerdictAnswer) -> fmt::Result {
    match answer {
        VerdictAnswer::Limit(n) => write!(f, ": limit trials {n}"),
        VerdictAnswer::Yes(n) => write!(f, ": yes trials {n}"),
        VerdictAnswer::No(shown, n) => write!(f, ": no {} trials {n}", Members(shown)),
    }
}

fn write_advice<W: fmt::Write>(f: &mut fmt::Formatter<W>, answer: AdviceAnswer) -> fmt::Result {
    match answer {
        AdviceAnswer::Limit(n) => write!(f, ": limit trials {n}"),
        AdviceAnswer::Nobody(n) => write!(f, ": none trials {n}"),
        AdviceAnswer::Person(Person(v), n) => write!(f, ": person {v} trials {n}"),
    }
}

fn write_away<W: fmt::Write>(f: &mut fmt::Formatter<W>, answer: AwayAnswer) -> fmt::Result {
    match answer {
        AwayAnswer::Limit(n) => write!(f, ": limit trials {n}"),
        AwayAnswer::Nobody(n) => write!(f, ": none trials {n}"),
        AwayAnswer::People(named, n) => write!(f, ": people {} trials {n}", Members(named)),
    }
}

impl fmt::Display for Refused {
    fn fmt<W: fmt::Write>(&self, f: &mut fmt::Formatter<W>) -> fmt::Result {
        let Refusal { number, place } = self.0;
        write!(f, ": refused {number} at {place}")
    }
}

impl fmt::Display for Plan {
    fn fmt<W: fmt::Write>(&self, f: &mut fmt::Formatter<W>) -> fmt::Result {
        let len = self.0.len;
        write!(f, "; plan {len}:")?;
        for Person(v) in self.0.who {
            write!(f, " {v}")?;
        }
        Ok(())
    }
}

impl fmt::Display for Members {
    fn fmt<W: fmt::Write>(&self, f: &mut fmt::Formatter<W>) -> fmt::Result {
        write!(f, "{{")?;
        for v in (0..People::WIDTH).filter(|v| self.0.has(*v)) {
            write!(f, " {v}")?;
        }
        write!(f, " }}")
    }
}
