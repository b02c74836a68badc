// The planner's calls as the comparison asks them, and their answers told as the second search tells its own.
#![tactic(auto)]

use cases::{Case, Position};
use planner::{AdviceAnswer, AwayAnswer, PlanAnswer, VerdictAnswer};
use refusals::Refusal;
use second::{Answer, Question};
use second_files::Reason;
use second_memory::{position_of, to_32};
use second_positions::Placed;
use sets::People;

// The largest limit.
pub const UNLIMITED: usize = 4294967295;

// A limit of at most 32 bits: the largest where the number has more.
pub fn limit_of(x: usize) -> u32 {
    u32::try_from(x).unwrap_or(u32::MAX)
}

// A refusal for no reason of the scope is told as wrong.
fn refused(refusal: Refusal) -> Answer {
    match Reason::try_from(refusal.number) {
        Ok(reason) => Answer::Refused(reason.at(refusal.place)),
        Err(unknown) => Answer::Wrong {
            shown: usize::from(unknown.0),
            trials: refusal.place,
        },
    }
}

fn no(shown: usize, trials: u32) -> Answer {
    Answer::No {
        shown: shown,
        trials: trials as usize,
    }
}

fn yes(shown: usize, trials: u32) -> Answer {
    Answer::Yes {
        shown: shown,
        trials: trials as usize,
    }
}

fn limit(trials: u32) -> Answer {
    Answer::Limit {
        trials: trials as usize,
    }
}

fn number_of(set: People) -> usize {
    set.word() as usize
}

// What is good is answered yes.
pub fn judged_told(judged: Result<(), Refusal>) -> Answer {
    judged.map_or_else(refused, |_| yes(0, 0))
}

pub fn ask_judge(file: &[u8]) -> Answer {
    judged_told(files::judge(file))
}

// A write: how many bytes.
pub fn ask_write(case: Case, buffer: &mut [u8]) -> Answer {
    writing::write(case, buffer).map_or_else(refused, |n| yes(usize::from(n), 0))
}

pub fn ask_question(question: Question, case: Case, t: usize, most: usize) -> Answer {
    let t = to_32(t);
    let most = limit_of(most);
    let verdict = match question {
        Question::Plan => return ask_plan(case, most),
        Question::Static => planner::static_verdict(case, t, most),
        Question::Decremental => planner::decremental_verdict(case, t, most),
        Question::OneShot => planner::one_shot_verdict(case, t, most),
        Question::Dynamic => planner::dynamic_verdict(case, t, most),
    };
    verdict.map_or_else(refused, verdict_told)
}

fn ask_plan(case: Case, most: u32) -> Answer {
    planner::plan(case, most).map_or_else(refused, |said| plan_told(said, case.counts.steps))
}

// A yes shows the plan's persons. A plan of another length than there are steps is told as wrong.
fn plan_told(said: PlanAnswer, steps: u16) -> Answer {
    match said {
        PlanAnswer::Limit(n) => limit(n),
        PlanAnswer::No(n) => no(0, n),
        PlanAnswer::Yes(plan, n) if u16::from(plan.len) == steps => yes(persons_of(plan), n),
        PlanAnswer::Yes(plan, _) => Answer::Wrong {
            shown: persons_of(plan),
            trials: usize::from(plan.len),
        },
    }
}

// All persons of a position, also behind its length.
fn persons_of(position: Position) -> usize {
    usize::from_le_bytes(position.who.map(|person| person.0))
}

fn verdict_told(said: VerdictAnswer) -> Answer {
    match said {
        VerdictAnswer::Limit(n) => limit(n),
        VerdictAnswer::Yes(n) => yes(0, n),
        VerdictAnswer::No(set, n) => no(number_of(set), n),
    }
}

pub fn ask_advice(case: Case, placed: Placed, t: usize, absent: usize, most: usize) -> Answer {
    let absent = People::from_word(to_32(absent));
    planner::advice(case, position_of(placed), to_32(t), absent, limit_of(most)).map_or_else(
        refused,
        |said| match said {
            AdviceAnswer::Limit(n) => limit(n),
            AdviceAnswer::Nobody(n) => no(0, n),
            AdviceAnswer::Person(person, n) => yes(usize::from(person.0), n),
        },
    )
}

pub fn ask_away(case: Case, placed: Placed, t: usize, most: usize) -> Answer {
    planner::away(case, position_of(placed), to_32(t), limit_of(most)).map_or_else(
        refused,
        |said| match said {
            AwayAnswer::Limit(n) => limit(n),
            AwayAnswer::Nobody(n) => no(0, n),
            AwayAnswer::People(set, n) => yes(number_of(set), n),
        },
    )
}
