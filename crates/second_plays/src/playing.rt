// Whole games, played by what the planner says.
use crate::Held;
use second::{Answer, advice, away};
use second_calls::{UNLIMITED, ask_advice, ask_away};
use second_draws::Chance;
use second_files::{has, size};
use second_moves::{At, few_of, lowest_good, somebody};
use second_positions::Slate;
use second_tally::{Asked, Tally, compare, expect};
use std::io;

// A game that the desk wins, played by advice: every move is to a valid position, and the last one is full.
pub fn play_desk(
    rt: &impl Print,
    chance: &mut Chance,
    slate: &Slate,
    tally: &mut Tally,
    held: Held,
) -> io::Result<()> {
    tally.desk_games.more();
    let mut at = At::START;
    for _ in 0..slate.listed.steps {
        let v = named_by_advice(rt, chance, slate, tally, held, at)?;
        let Some(next) = at.moved(&slate.listed, v) else {
            return expect(rt, tally, held.file, Asked::Advice, false);
        };
        at = next;
    }
    let full = slate.listed.is_full(at.node);
    expect(rt, tally, held.file, Asked::Advice, full)
}

// Whom the planner names, who is present. People by chance are absent, or those whom advice would name first.
fn named_by_advice(
    rt: &impl Print,
    chance: &mut Chance,
    slate: &Slate,
    tally: &mut Tally,
    held: Held,
    at: At,
) -> io::Result<usize> {
    let absent = if chance.below(2) == 0 {
        few_of(chance, held.file.people(), held.t)
    } else {
        lowest_good(slate, at.node, held.t)
    };
    let ours = advice(slate, at.node, absent);
    let theirs = ask_advice(held.case, at.placed, held.t, absent, UNLIMITED);
    compare(rt, tally, held.file, Asked::Advice, ours, theirs)?;
    let named = shown(theirs);
    expect(rt, tally, held.file, Asked::Advice, !has(absent, named))?;
    Ok(named)
}

// A game that the away side wins, played by away against persons by chance: it ends where nobody present can be placed.
pub fn play_away(
    rt: &impl Print,
    chance: &mut Chance,
    slate: &Slate,
    tally: &mut Tally,
    held: Held,
) -> io::Result<()> {
    tally.away_games.more();
    let mut at = At::START;
    for _ in 0..slate.listed.steps {
        let absent = named_away(rt, slate, tally, held, at)?;
        let Some(v) = somebody(chance, &slate.listed, at.node, absent) else {
            return Ok(());
        };
        at = at.moved(&slate.listed, v).unwrap_or(at);
    }
    expect(rt, tally, held.file, Asked::Away, false)
}

// Whom the planner keeps away, at most t people.
fn named_away(
    rt: &impl Print,
    slate: &Slate,
    tally: &mut Tally,
    held: Held,
    at: At,
) -> io::Result<usize> {
    let ours = away(slate, at.node, held.t);
    let theirs = ask_away(held.case, at.placed, held.t, UNLIMITED);
    compare(rt, tally, held.file, Asked::Away, ours, theirs)?;
    let named = shown(theirs);
    expect(rt, tally, held.file, Asked::Away, size(named) <= held.t)?;
    Ok(named)
}

// The person or the people that an answer shows.
fn shown(answer: Answer) -> usize {
    match answer {
        Answer::Yes { shown, .. } => shown,
        _ => 0,
    }
}
