// Good files and refused ones, given to every exported function.
use crate::calls::{call_question, left_by};
use rodcrank::{rodcrank_advice, rodcrank_away, rodcrank_judge};
use second::{Answer, Five, Question, advice, away, judged_absent, node_of};
use second_calls::limit_of;
use second_draws::Chance;
use second_files::{File, Reason, Turned, minus, plus, set_of};
use second_memory::to_32;
use second_moves::{draw_absent, draw_position, limit_for};
use second_positions::{Placed, Slate};
use second_replies::{
    Pairs, REPLY, advice_reply, away_reply, draw_pairs, judged_reply, plan_reply, verdict_reply,
};
use second_tally::{Asked, Function, Tally, is_first};
use std::io;

// A good file, whose answers are known: every function, at a limit by chance.
pub fn try_exported(
    rt: &impl Print,
    chance: &mut Chance,
    slate: &Slate,
    tally: &mut Tally,
    file: &File,
    t: usize,
    five: Five,
) -> io::Result<()> {
    let good = Answer::from(Ok(()));
    let theirs = left_by(|out| rodcrank_judge(file.lent(), out));
    compare_reply(
        rt,
        tally,
        file,
        Function::Judge,
        good,
        judged_reply(good),
        theirs,
    )?;
    for (question, ours) in Question::ALL.iter().zip(&five.all()) {
        try_question(rt, chance, tally, file, *question, t, *ours)?;
    }
    try_t_above(rt, chance, tally, file)?;
    for i in 0..4 {
        let placed = draw_position(chance, &slate.listed, file);
        let pairs = draw_pairs(chance, placed);
        // The last time t is above 32.
        let t = if i < 3 { t } else { chance.from_to(33, 132) };
        try_advice(rt, chance, slate, tally, file, t, &pairs)?;
        try_away(rt, chance, slate, tally, file, t, &pairs)?;
    }
    Ok(())
}

// t above 32 is turned away, but not for the plan.
fn try_t_above(
    rt: &impl Print,
    chance: &mut Chance,
    tally: &mut Tally,
    file: &File,
) -> io::Result<()> {
    let above = Answer::Refused(Reason::Absentees.at(0));
    let question = draw_verdict(chance);
    let high = chance.from_to(33, 4294967295);
    try_question(rt, chance, tally, file, question, high, above)
}

// Every question but the plan.
pub fn draw_verdict(chance: &mut Chance) -> Question {
    match chance.below(4) {
        0 => Question::Static,
        1 => Question::Decremental,
        2 => Question::OneShot,
        _ => Question::Dynamic,
    }
}

// One of the five questions, at a limit by chance.
fn try_question(
    rt: &impl Print,
    chance: &mut Chance,
    tally: &mut Tally,
    file: &File,
    question: Question,
    t: usize,
    ours: Answer,
) -> io::Result<()> {
    let limit = limit_for(chance, ours);
    let theirs = call_question(question, file.lent(), to_32(t), limit_of(limit));
    let said = ours.within(limit);
    let reply = if question == Question::Plan {
        plan_reply(said, file.steps())
    } else {
        verdict_reply(said)
    };
    compare_reply(
        rt,
        tally,
        file,
        Function::Question(question),
        said,
        reply,
        theirs,
    )
}

// An absence set in two words.
#[derive(Clone, Copy)]
struct Absent {
    low: usize,
    high: usize,
}

// One as drawn; now and then with somebody past the people, in the first word or in the second.
fn draw_two_words(chance: &mut Chance, n: usize, t: usize) -> Absent {
    let low = draw_absent(chance, n, t);
    match chance.below(8) {
        0 => Absent {
            low: low | set_of(plus(n, chance.below(minus(64, n)))),
            high: 0,
        },
        1 => Absent {
            low: low,
            high: set_of(chance.below(64)),
        },
        _ => Absent { low: low, high: 0 },
    }
}

fn try_advice(
    rt: &impl Print,
    chance: &mut Chance,
    slate: &Slate,
    tally: &mut Tally,
    file: &File,
    t: usize,
    pairs: &Pairs,
) -> io::Result<()> {
    let absent = draw_two_words(chance, file.people(), t);
    let ours = our_advice(slate, file, pairs, t, absent).unwrap_or_else(Answer::Refused);
    let limit = limit_for(chance, ours);
    let theirs = call_advice(file, pairs, t, absent, limit);
    let said = ours.within(limit);
    let reply = advice_reply(said, pairs.entries());
    compare_reply(rt, tally, file, Function::Advice, said, reply, theirs)
}

fn call_advice(file: &File, pairs: &Pairs, t: usize, absent: Absent, limit: usize) -> [u64; REPLY] {
    let low = absent.low as u64;
    let high = absent.high as u64;
    left_by(|out| {
        rodcrank_advice(
            file.lent(),
            pairs.lent(),
            to_32(t),
            low,
            high,
            limit_of(limit),
            out,
        )
    })
}

fn our_advice(
    slate: &Slate,
    file: &File,
    pairs: &Pairs,
    t: usize,
    absent: Absent,
) -> Result<Answer, Turned> {
    let node = node_asked(slate, file, pairs, t)?;
    if absent.high != 0 {
        return Err(Reason::Absence.at(0));
    }
    judged_absent(file, t, absent.low)?;
    Ok(advice(slate, node, absent.low))
}

// t and the position judged, and the position's node.
fn node_asked(slate: &Slate, file: &File, pairs: &Pairs, t: usize) -> Result<usize, Turned> {
    if 32 < t {
        return Err(Reason::Absentees.at(0));
    }
    pairs.judged(file)?;
    let placed = pairs.placed(pairs.entries());
    node_of(&slate.listed, placed).ok_or(Reason::Position.at(placed.length))
}

fn try_away(
    rt: &impl Print,
    chance: &mut Chance,
    slate: &Slate,
    tally: &mut Tally,
    file: &File,
    t: usize,
    pairs: &Pairs,
) -> io::Result<()> {
    let ours = our_away(slate, file, pairs, t).unwrap_or_else(Answer::Refused);
    let limit = limit_for(chance, ours);
    let theirs = call_away(file, pairs, t, limit);
    let said = ours.within(limit);
    compare_reply(
        rt,
        tally,
        file,
        Function::Away,
        said,
        away_reply(said),
        theirs,
    )
}

fn call_away(file: &File, pairs: &Pairs, t: usize, limit: usize) -> [u64; REPLY] {
    left_by(|out| rodcrank_away(file.lent(), pairs.lent(), to_32(t), limit_of(limit), out))
}

fn our_away(slate: &Slate, file: &File, pairs: &Pairs, t: usize) -> Result<Answer, Turned> {
    let node = node_asked(slate, file, pairs, t)?;
    Ok(away(slate, node, t))
}

// A refused file: every function says so, whatever else it is given.
pub fn try_refused_exported(
    rt: &impl Print,
    chance: &mut Chance,
    tally: &mut Tally,
    file: &File,
    turned: Turned,
) -> io::Result<()> {
    let ours = Answer::Refused(turned);
    let reply = judged_reply(ours);
    let theirs = left_by(|out| rodcrank_judge(file.lent(), out));
    compare_reply(rt, tally, file, Function::Judge, ours, reply, theirs)?;
    let t = chance.below(40);
    for question in Question::ALL {
        try_question(rt, chance, tally, file, question, t, ours)?;
    }
    let placed = Placed {
        who: chance.below(65536),
        length: chance.below(10),
    };
    let pairs = draw_pairs(chance, placed);
    let limit = chance.below(3);
    let absent = Absent { low: 1, high: 0 };
    let theirs = call_advice(file, &pairs, t, absent, limit);
    compare_reply(rt, tally, file, Function::Advice, ours, reply, theirs)?;
    let theirs = call_away(file, &pairs, t, limit);
    compare_reply(rt, tally, file, Function::Away, ours, reply, theirs)
}

// Counts a call, and tells a difference.
fn compare_reply(
    rt: &impl Print,
    tally: &mut Tally,
    file: &File,
    function: Function,
    said: Answer,
    ours: [u64; REPLY],
    theirs: [u64; REPLY],
) -> io::Result<()> {
    tally.count_exported(function, said);
    if ours != theirs && is_first(rt, tally, file, Asked::Exported(function))? {
        print_reply(rt, ours)?;
        print_reply(rt, theirs)?;
    }
    Ok(())
}

fn print_reply(rt: &impl Print, reply: [u64; REPLY]) -> io::Result<()> {
    for x in reply {
        print!(rt; " {x}")?;
    }
    println!(rt)
}
