// Damaged files compared: how they are judged, their text, what the exported functions say of them, and what the calls say of the same case in memory.
// Nothing is promised here but safety.
#![tactic(auto)]

use cases::Case;
use second::{Answer, Question};
use second_calls::{ask_advice, ask_away, ask_judge, ask_question, judged_told};
use second_draws::{Chance, draw};
use second_exports::try_refused_exported;
use second_faults::damage;
use second_files::{File, Reason, Turned, first, plus};
use second_memory::case_of;
use second_positions::Placed;
use second_shapes::tiny;
use second_tally::{Asked, Tally, compare, expect};
use second_texts::{input_of, try_refused_text};
use second_trips::{try_parts, try_refused_write};
use std::io;

// A small file with one fault, or with two.
pub fn try_damaged(
    rt: &impl Print,
    chance: &mut Chance,
    tally: &mut Tally,
    fault: Reason,
    other: Option<Reason>,
) -> io::Result<()> {
    let shape = tiny(chance);
    let mut file = draw(chance, shape);
    damage(chance, &mut file, fault);
    match other {
        None => tally.one_fault.more(),
        Some(other) => {
            damage(chance, &mut file, other);
            tally.two_faults.more();
        }
    }
    try_file(rt, chance, tally, &file)
}

fn try_file(
    rt: &impl Print,
    chance: &mut Chance,
    tally: &mut Tally,
    file: &File,
) -> io::Result<()> {
    let judged = file.judged();
    let ours = Answer::from(judged);
    compare(
        rt,
        tally,
        file,
        Asked::Judging,
        ours,
        ask_judge(file.lent()),
    )?;
    let read = files::read(file.lent());
    compare(
        rt,
        tally,
        file,
        Asked::Judging,
        ours,
        judged_told(read.judged),
    )?;
    try_parts(rt, tally, file, judged.is_ok())?;
    let Err(turned) = judged else {
        return Ok(());
    };
    let empty = read.held == Case::empty();
    expect(rt, tally, file, Asked::Judging, empty)?;
    try_refused_exported(rt, chance, tally, file, turned)?;
    try_texts(rt, chance, tally, file, turned)?;
    if is_met_in_memory(turned.reason) {
        let case = case_of(chance, file, 4294967296);
        try_refused_case(rt, chance, tally, file, case, ours)?;
        try_refused_write(rt, tally, file, case, ours)?;
    }
    Ok(())
}

// The text of the file, whatever t is; and now and then of fewer bytes than stand before a file.
fn try_texts(
    rt: &impl Print,
    chance: &mut Chance,
    tally: &mut Tally,
    file: &File,
    turned: Turned,
) -> io::Result<()> {
    let t = chance.below(40);
    let limit = chance.below(4294967296);
    let input = input_of(file, t, limit);
    let all = first(&input, plus(6, file.length));
    try_refused_text(rt, chance, tally, file, all, turned)?;
    if chance.below(8) == 0 {
        let few = first(&input, chance.below(30));
        try_refused_text(rt, chance, tally, file, few, Reason::Header.at(0))?;
    }
    Ok(())
}

// Can a case in memory meet it?
fn is_met_in_memory(reason: Reason) -> bool {
    matches!(
        reason,
        Reason::Limit | Reason::Person | Reason::Step | Reason::Before | Reason::Row | Reason::Rule
    )
}

// Every call refuses the case, whatever else it is given.
fn try_refused_case(
    rt: &impl Print,
    chance: &mut Chance,
    tally: &mut Tally,
    file: &File,
    case: Case,
    ours: Answer,
) -> io::Result<()> {
    let t = chance.below(40);
    let limit = chance.below(3);
    for question in Question::ALL {
        let theirs = ask_question(question, case, t, limit);
        compare(rt, tally, file, Asked::Question(question), ours, theirs)?;
    }
    let placed = Placed {
        who: chance.below(65536),
        length: chance.below(10),
    };
    let absent = chance.below(64);
    let theirs = ask_advice(case, placed, t, absent, limit);
    compare(rt, tally, file, Asked::Advice, ours, theirs)?;
    let theirs = ask_away(case, placed, t, limit);
    compare(rt, tally, file, Asked::Away, ours, theirs)
}
