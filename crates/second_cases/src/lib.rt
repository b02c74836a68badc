// Good cases compared: every question, at several limits, its play, the program's text and the exported calls.
#![tactic(auto)]

use second::{
    Answer, Five, MOST_TRIALS, Question, decremental, dynamic, first_plan, has_room, list_sets,
    one_shot, static_answer,
};
use second_calls::{UNLIMITED, ask_judge, ask_question};
use second_draws::Chance;
use second_exports::{draw_verdict, try_exported};
use second_files::{File, Reason};
use second_memory::case_of;
use second_plays::{Held, play_away, play_desk, try_advice, try_away};
use second_positions::{Slate, list_positions};
use second_tally::{Asked, Tally, compare, expect};
use second_texts::try_text;
use second_trips::{try_from_file, try_from_memory, try_parts, try_short};
use std::io;

// A good file, and the questions about its case.
pub fn try_case(
    rt: &impl Print,
    chance: &mut Chance,
    slate: &mut Slate,
    tally: &mut Tally,
    file: &File,
    t: usize,
) -> io::Result<()> {
    tally.count_case();
    let judged = file.judged();
    expect(rt, tally, file, Asked::Judging, judged.is_ok())?;
    let ours = Answer::from(judged);
    compare(
        rt,
        tally,
        file,
        Asked::Judging,
        ours,
        ask_judge(file.lent()),
    )?;
    let case = files::read(file.lent()).held;
    try_parts(rt, tally, file, true)?;
    try_from_file(rt, tally, file, case)?;
    try_from_memory(rt, chance, tally, file)?;
    try_short(rt, chance, tally, file, case)?;
    let held = Held { file, case, t };
    try_t_above(rt, chance, tally, held)?;
    if list_positions(&mut slate.listed, file).is_ok() {
        try_questions(rt, chance, slate, tally, held)
    } else {
        tally.given_up.more();
        Ok(())
    }
}

// t above 32 is turned away, but not for the plan.
fn try_t_above(
    rt: &impl Print,
    chance: &mut Chance,
    tally: &mut Tally,
    held: Held,
) -> io::Result<()> {
    let high = chance.from_to(33, 70032);
    let question = draw_verdict(chance);
    let ours = Answer::Refused(Reason::Absentees.at(0));
    let theirs = ask_question(question, held.case, high, 0);
    compare(
        rt,
        tally,
        held.file,
        Asked::Question(question),
        ours,
        theirs,
    )
}

// The questions one by one, as far as the slate has room; then, with all five answers, the chain of games, the text and the exported functions.
fn try_questions(
    rt: &impl Print,
    chance: &mut Chance,
    slate: &mut Slate,
    tally: &mut Tally,
    held: Held,
) -> io::Result<()> {
    let plan = first_plan(slate);
    ask_at_limits(rt, tally, held, Question::Plan, plan)?;
    if list_sets(&mut slate.listed, held.t).is_err() {
        tally.given_up_absence.more();
        return Ok(());
    }
    let fixed = static_answer(slate);
    ask_at_limits(rt, tally, held, Question::Static, fixed)?;
    let struck = one_shot(slate);
    ask_at_limits(rt, tally, held, Question::OneShot, struck)?;
    let changing = dynamic(slate, held.t);
    try_changing(rt, chance, slate, tally, held, changing)?;
    if !has_room(&slate.listed) {
        tally.given_up_decremental.more();
        return Ok(());
    }
    let growing = decremental(slate);
    ask_at_limits(rt, tally, held, Question::Decremental, growing)?;
    let five = Five {
        plan,
        fixed,
        growing,
        struck,
        changing,
    };
    expect(rt, tally, held.file, Asked::Chain, is_chain(five))?;
    tally.count_apart(five);
    try_text(rt, chance, tally, held.file, held.t, five)?;
    try_exported(rt, chance, slate, tally, held.file, held.t, five)
}

// Is every game won that is easier than one that is won?
fn is_chain(five: Five) -> bool {
    five.fixed.is_yes() <= five.plan.is_yes()
        && five.struck.is_yes() <= five.fixed.is_yes()
        && five.growing.is_yes() <= five.struck.is_yes()
        && five.changing.is_yes() <= five.growing.is_yes()
}

// At the largest limit, at the exact count and one below; or at a small limit only, where the walk is long.
fn ask_at_limits(
    rt: &impl Print,
    tally: &mut Tally,
    held: Held,
    question: Question,
    ours: Answer,
) -> io::Result<()> {
    tally.count_answer(question, ours);
    if ours.is_long() {
        return ask_at(rt, tally, held, question, ours, MOST_TRIALS);
    }
    let trials = ours.trials();
    ask_at(rt, tally, held, question, ours, UNLIMITED)?;
    ask_at(rt, tally, held, question, ours, trials)?;
    if 0 < trials {
        ask_at(rt, tally, held, question, ours, trials - 1)?;
    }
    Ok(())
}

fn ask_at(
    rt: &impl Print,
    tally: &mut Tally,
    held: Held,
    question: Question,
    ours: Answer,
    limit: usize,
) -> io::Result<()> {
    let theirs = ask_question(question, held.case, held.t, limit);
    compare(
        rt,
        tally,
        held.file,
        Asked::Question(question),
        ours.within(limit),
        theirs,
    )
}

// The dynamic question, asked of a case with junk above its counts, and its play: advice and away at positions by chance, and whole games.
fn try_changing(
    rt: &impl Print,
    chance: &mut Chance,
    slate: &Slate,
    tally: &mut Tally,
    held: Held,
    changing: Answer,
) -> io::Result<()> {
    let full = Held {
        case: case_of(chance, held.file, 4294967296),
        ..held
    };
    ask_at_limits(rt, tally, full, Question::Dynamic, changing)?;
    for _ in 0..3 {
        try_advice(rt, chance, slate, tally, held)?;
        try_away(rt, chance, slate, tally, held)?;
    }
    if changing.is_long() {
        Ok(())
    } else if changing.is_yes() {
        play_desk_often(rt, chance, slate, tally, held)
    } else {
        play_away(rt, chance, slate, tally, held)
    }
}

// The desk wins more seldom: where the away side has played more games, it plays up to three, under other absences.
fn play_desk_often(
    rt: &impl Print,
    chance: &mut Chance,
    slate: &Slate,
    tally: &mut Tally,
    held: Held,
) -> io::Result<()> {
    for _ in 0..3 {
        play_desk(rt, chance, slate, tally, held)?;
        if tally.away_games.number() <= tally.desk_games.number() {
            break;
        }
    }
    Ok(())
}
