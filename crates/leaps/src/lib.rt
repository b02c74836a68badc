// Leaps of the static walk: sets of people whose plan walks are summed together. A plan walk tells whom it met, and comes to the same without others too.
// So the walks without all sets that hold nobody more of those met are counted and not made; the sets that hold more are summed in the same way, one person
// who was met after the other. Where a set has no plan nothing is said, and the sets must be gone over.
#![tactic(auto)]

ghost use Rattle.std.specs.Prelude.{ℕ, ◌^◌, ◌≤◌, ◌<◌};
ghost use Rattle.sets.specs.Stored.{width, number};
ghost use Rattle.sums.specs.Sums.{only_below};
ghost use Rattle.sums.specs.Arrays.{weight_of};
ghost use Rattle.tries.specs.Outcomes.{PlanTold};
ghost use Rattle.leaps.specs.Leaps.{Leaps, AllPlanned, Free};

use boards::{Board, allowed};
use cases::{Filled, Step};
use plans::plan_walk;
use sets::{People, holds};
use sums::{Absences, ROOM, added, how_many, joined, once_below, staying, weight};
use tries::{PlanEnd, Planned};

// A leap over fewer people is not worth its walks.
const LEAST: u8 = 5;

// From a set on: all sets with people below a bound besides, and the sum of their trials, as it is told.
#[derive(Clone, Copy)]
pub struct Leap {
    pub below: u8,
    pub trials: u64,
}

// The sum of the trials, as it is told, with the trials that may still be made.
#[derive(Clone, Copy)]
struct Tally {
    trials: u64,
    spare: u32,
}

// A leap from a set on, among the sets of at most t people, where the walk without the set has been made, with a limit. No more walks are made than a budget
// of trials allows, and none where most of the people below the bound were met: then there would be nearly a walk for each set. Where there is no leap the
// trials are told that may still be made in vain.
pub fn leap_from(
    board: &Board,
    t: u32,
    set: People,
    p: Filled,
    left: u8,
    walked: Planned,
    limit: u32,
    budget: u32,
) -> Result<Leap, u32>
    requires { (number set < 2 ^ board.now.people) × PlanTold board.now.words board.now.people (number set) left limit p walked }
    ensures { Leaps board.now.words board.now.people t (number set) left p result }
{
    let size = set.size();
    if t <= size {
        return Err(budget);
    }
    let room = t - size;
    if ROOM < room {
        return Err(budget);
    }
    let most = free_below(board.people, set);
    if most < LEAST {
        return Err(budget);
    }
    let below = open_below(board, set, room, p, most);
    if below < LEAST {
        return Err(budget);
    }
    if most_of(walked.met, below) {
        return Err(budget);
    }
    let tally = spread(
        board,
        once_below(set, room, below),
        p,
        left,
        walked,
        limit,
        budget,
    )?;
    Ok(Leap {
        below,
        trials: tally.trials,
    })
}

// Are more than three in four of the people below a bound in the set?
fn most_of(met: People, below: u8) -> bool {
    (below as u32) * 3 < met.common(People::everybody(below)).size() * 4
}

// The highest bound of a leap: nobody of the set is at it or below it, so that the set with the person at the bound comes next. 0 where person 0 is in it.
fn free_below(people: u8, set: People) -> u8
    requires { (people ≤ 32) × (number set < 2 ^ people) }
    ensures { Free people (number set) result }
{
    match set.lowest() {
        None => people,
        Some(v) => v.saturating_sub(1),
    }
}

// A bound of at most `most` such that no step that is not filled is sure to be left to nobody, where `set` and at most `room` people below the bound are
// away. It is a guess: the walks tell.
fn open_below(board: &Board, set: People, room: u32, p: Filled, most: u8) -> u8
    ensures { result ≤ most }
{
    let mut below = most;
    for s in 0..8 {
        below = open_at(board, set, room, p, Step(s), below);
    }
    below
}

// The same for one step.
fn open_at(board: &Board, set: People, room: u32, p: Filled, s: Step, most: u8) -> u8
    ensures { result ≤ most }
{
    if holds(p.steps as u16, s.0) {
        return most;
    }
    let able = allowed(&board.words, s)
        .common(People::everybody(board.people))
        .difference(set);
    // The walk found somebody for each step there is.
    if able.is_none() {
        return most;
    }
    if room < able.size() {
        return most;
    }
    reached(able, most)
}

// The highest bound of at most `most` that some of these people are not below, or 0, a bound that nobody is below.
fn reached(able: People, most: u8) -> u8
    ensures { result ≤ most }
{
    for bound in (1..=most).rev() {
        if able.past(bound as u16) {
            return bound;
        }
    }
    0
}

// The trials of the plan walks without these sets, where each has a plan; or the trials that may still be made. First the walk without the smallest set is
// made.
#[cycle(all_planned_spread)]
fn all_planned(
    board: &Board,
    sets: Absences,
    p: Filled,
    left: u8,
    budget: u32,
) -> Result<Tally, u32>
    requires { (number sets.held < 2 ^ board.now.people) × (sets.room ≤ 8) × ((u : ℕ) → u < width → weight_of sets u ≤ only_below board.now.people u) }
    ensures { AllPlanned board.now.words board.now.people sets left p result }
{
    let walked = plan_walk(board, sets.held, p, left, budget);
    spread(board, sets, p, left, walked, budget, budget)
}

// The same, where that walk has been made, with a limit. Those whom it met, and who may join, are taken one after the other: first the sets that they join,
// and then they stay.
#[cycle(all_planned_spread)]
fn spread(
    board: &Board,
    sets: Absences,
    p: Filled,
    left: u8,
    walked: Planned,
    limit: u32,
    budget: u32,
) -> Result<Tally, u32>
    requires { (number sets.held < 2 ^ board.now.people) × (sets.room ≤ 8) × ((u : ℕ) → u < width → weight_of sets u ≤ only_below board.now.people u) × PlanTold board.now.words board.now.people (number sets.held) left limit p walked }
    ensures { AllPlanned board.now.words board.now.people sets left p result }
{
    let trials = match walked.end {
        PlanEnd::Limit => return Err(0),
        PlanEnd::No(trials) => return Err(budget.saturating_sub(trials)),
        PlanEnd::Yes(trials) => trials,
    };
    let mut spare = budget.saturating_sub(trials);
    if sets.room == 0 {
        return Ok(Tally {
            trials: trials as u64,
            spare,
        });
    }
    let mut rest = walked.met.difference(sets.held);
    let mut stay = sets;
    let mut sum: u64 = 0;
    while let Some(v) = rest.lowest() {
        let before = stay;
        rest = rest.without(v);
        stay = staying(before, v);
        if weight(before, v) != 1 {
            continue;
        }
        let more = all_planned(board, joined(before, v), p, left, spare)?;
        sum = added(sum, 1, more.trials, 0);
        spare = more.spare;
    }
    Ok(Tally {
        trials: added(sum, trials as u64, how_many(board.people, stay), 0),
        spare,
    })
}
