// What each exported function must leave in the caller's array, made from the second search's own answers.
use second::Answer;
use second_positions::Placed;

// How many numbers a reply has.
pub const REPLY: usize = 18;

// Nothing said.
const EMPTY: [u64; REPLY] = [0; REPLY];

fn wide(x: usize) -> u64 {
    x as u64
}

// What is said, as the number that C reads, and the trials.
fn said(what: u64, trials: usize) -> [u64; REPLY] {
    let mut out = EMPTY;
    out[2] = what;
    out[3] = wide(trials);
    out
}

// What an answer says besides yes, no, nobody and named: a refusal with its place, or the limit.
fn other(a: Answer) -> [u64; REPLY] {
    match a {
        Answer::Refused(turned) => {
            let mut out = EMPTY;
            out[0] = wide(turned.reason.number());
            out[1] = wide(turned.place);
            out
        }
        _ => said(1, a.trials()),
    }
}

pub fn judged_reply(a: Answer) -> [u64; REPLY] {
    match a {
        Answer::Yes { trials, .. } => said(2, trials),
        _ => other(a),
    }
}

// A yes of the plan question shows how many steps there are, and their persons.
pub fn plan_reply(a: Answer, steps: usize) -> [u64; REPLY] {
    match a {
        Answer::No { trials, .. } => said(3, trials),
        Answer::Yes { shown, trials } => {
            let plan = Placed {
                who: shown,
                length: steps,
            };
            with_plan(said(2, trials), plan)
        }
        _ => other(a),
    }
}

fn with_plan(reply: [u64; REPLY], plan: Placed) -> [u64; REPLY] {
    let mut out = reply;
    out[9] = wide(plan.length);
    for i in 0..8 {
        out[10 + i] = wide(plan.person(i));
    }
    out
}

// A no of a verdict shows a set.
pub fn verdict_reply(a: Answer) -> [u64; REPLY] {
    match a {
        Answer::No { shown, trials } => with_set(said(3, trials), shown),
        Answer::Yes { trials, .. } => said(2, trials),
        _ => other(a),
    }
}

// Nobody of the people that a set can have here stands in its second word.
fn with_set(reply: [u64; REPLY], set: usize) -> [u64; REPLY] {
    let mut out = reply;
    out[4] = wide(set);
    out
}

// Advice names the next step and the person.
pub fn advice_reply(a: Answer, step: usize) -> [u64; REPLY] {
    match a {
        Answer::No { trials, .. } => said(4, trials),
        Answer::Yes { shown, trials } => with_person(said(5, trials), step, shown),
        _ => other(a),
    }
}

fn with_person(reply: [u64; REPLY], step: usize, person: usize) -> [u64; REPLY] {
    let mut out = reply;
    out[6] = wide(step);
    out[7] = wide(person);
    out
}

// Away names people.
pub fn away_reply(a: Answer) -> [u64; REPLY] {
    match a {
        Answer::No { trials, .. } => said(4, trials),
        Answer::Yes { shown, trials } => with_set(said(5, trials), shown),
        _ => other(a),
    }
}
