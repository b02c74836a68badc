// Advice and away at one position, at a limit by chance.
use crate::Held;
use second::{Answer, advice, away, judged_absent, judged_position, node_of};
use second_calls::{ask_advice, ask_away};
use second_draws::Chance;
use second_files::{File, Reason, Turned};
use second_moves::{draw_absent, draw_position, limit_for};
use second_positions::{Placed, Slate};
use second_tally::{Asked, Tally, compare};
use std::io;

pub fn try_advice(
    rt: &impl Print,
    chance: &mut Chance,
    slate: &Slate,
    tally: &mut Tally,
    held: Held,
) -> io::Result<()> {
    let placed = draw_position(chance, &slate.listed, held.file);
    let absent = draw_absent(chance, held.file.people(), held.t);
    let ours = our_advice(slate, held, placed, absent).unwrap_or_else(Answer::Refused);
    let limit = limit_for(chance, ours);
    compare_at(
        rt,
        chance,
        tally,
        held,
        Asked::Advice,
        ours.within(limit),
        |t| { ask_advice(held.case, placed, t, absent, limit) },
    )
}

fn our_advice(slate: &Slate, held: Held, placed: Placed, absent: usize) -> Result<Answer, Turned> {
    let node = node_asked(slate, held.file, placed)?;
    judged_absent(held.file, held.t, absent)?;
    Ok(advice(slate, node, absent))
}

// The position judged, and its node.
fn node_asked(slate: &Slate, file: &File, placed: Placed) -> Result<usize, Turned> {
    judged_position(file, placed)?;
    node_of(&slate.listed, placed).ok_or(Reason::Position.at(placed.length))
}

pub fn try_away(
    rt: &impl Print,
    chance: &mut Chance,
    slate: &Slate,
    tally: &mut Tally,
    held: Held,
) -> io::Result<()> {
    let placed = draw_position(chance, &slate.listed, held.file);
    let ours = our_away(slate, held, placed).unwrap_or_else(Answer::Refused);
    let limit = limit_for(chance, ours);
    compare_at(
        rt,
        chance,
        tally,
        held,
        Asked::Away,
        ours.within(limit),
        |t| { ask_away(held.case, placed, t, limit) },
    )
}

fn our_away(slate: &Slate, held: Held, placed: Placed) -> Result<Answer, Turned> {
    let node = node_asked(slate, held.file, placed)?;
    Ok(away(slate, node, held.t))
}

// Asks at t; and now and then at a t above 32, which is turned away.
fn compare_at<A: Fn(usize) -> Answer>(
    rt: &impl Print,
    chance: &mut Chance,
    tally: &mut Tally,
    held: Held,
    asked: Asked,
    ours: Answer,
    ask: A,
) -> io::Result<()>
    requires { A.IsAlwaysCallable ask }
{
    compare(rt, tally, held.file, asked, ours, ask(held.t))?;
    if chance.below(10) == 0 {
        let high = chance.from_to(33, 132);
        let refused = Answer::Refused(Reason::Absentees.at(0));
        compare(rt, tally, held.file, asked, refused, ask(high))?;
    }
    Ok(())
}
