// Sums over absence sets, without going over the sets: what they mean (specs/), their laws (proofs/), and how many sets there are, counted.
// This crate knows sets and walks, and no board and no search.
#![tactic(auto)]

ghost use Rattle.std.specs.Prelude.{◌≡◌, ℕ, ◌+◌, ◌*◌, ◌≤◌, ◌<◌};
ghost use Rattle.sets.specs.Lists.{pick};
ghost use Rattle.sets.specs.Sets.{has};
ghost use Rattle.sets.specs.Stored.{width, number};
ghost use Rattle.sums.specs.Sums.{how_many, how_many_miss, but, most, capped};
ghost use Rattle.sums.specs.Arrays.{entry, Under, OneMore, weight_of, once, OnceBelow, staying, JoinedBy, Raised};

use sets::People;

// How many people may join at most.
pub const ROOM: u32 = 8;

// One sum for each number of people who may join: nobody, up to ROOM.
const SUMS: usize = 9;

// A sum that is more than any limit is told as this.
const MOST: u64 = 1 << 32;

// Absence sets: each holds everybody of `held` and at most `room` others. Where person u joins, what follows counts weights[u] times.
#[derive(Clone, Copy)]
pub struct Absences {
    pub held: People,
    pub room: u32,
    pub weights: [u8; 32],
}

// The sets that hold everybody of `held` and at most `room` others, each counted once.
pub fn once(held: People, room: u32) -> Absences
    ensures { result ≡ once held room }
{
    Absences {
        held,
        room,
        weights: [1; 32],
    }
}

// The same, where the others are among the first `below` people. Two functions, since `once` has no bound to ask for.
pub fn once_below(held: People, room: u32, below: u8) -> Absences
    requires { below ≤ width }
    ensures { OnceBelow held room below result }
{
    let mut weights = [0; 32];
    weights[..below as usize].fill(1);
    Absences {
        held,
        room,
        weights,
    }
}

// A sum as it is told.
fn capped(x: u64) -> u64
    ensures { result ≡ capped x }
{
    x.min(MOST)
}

// A product of two as it is told.
pub fn product(a: u64, b: u64) -> u64
    requires { (a ≤ most) × (b ≤ most) }
    ensures { result ≡ capped (a * b) }
{
    if a == 0 {
        return 0;
    }
    if b == MOST {
        return MOST;
    }
    capped(a * b)
}

// A sum with `scale` times two numbers more, as it is told.
pub fn added(sum: u64, scale: u64, a: u64, b: u64) -> u64
    requires { (sum ≤ most) × (scale ≤ most) × (a ≤ most) × (b ≤ most) }
    ensures { result ≡ capped (sum + capped (scale * capped (a + b))) }
{
    capped(sum + product(scale, capped(a + b)))
}

// How many sets there are, of the first `people`.
pub fn how_many(people: u8, sets: Absences) -> u64
    requires { (people ≤ width) × (sets.room ≤ 8) }
    ensures { result ≡ capped (how_many (weight_of sets) people sets.room (number sets.held)) }
{
    let room = sets.room as usize;
    if room == 0 {
        return 1;
    }
    let mut sums = [1u64; SUMS];
    for u in 0..people {
        sums = one_more(sums, room, weight(sets, u));
    }
    sums[room]
}

// The sums with one person more, who counts w times, as far as there is room.
fn one_more(sums: [u64; SUMS], room: usize, w: u8) -> [u64; SUMS]
    requires { (room ≤ 8) × Under room sums }
    ensures { OneMore room w (entry sums) result }
{
    if w == 0 {
        return sums;
    }
    let mut out = [0u64; SUMS];
    let mut before: u64 = 0;
    for (j, here) in sums[..=room].iter().enumerate() {
        out[j] = capped(*here + (w as u64) * before);
        before = *here;
    }
    out
}

// How often person u counts: not at all where held.
pub fn weight(sets: Absences, u: u8) -> u8
    requires { u < width }
    ensures { result ≡ pick (has (number sets.held) u) 0 (weight_of sets u) }
{
    if sets.held.has(u) {
        0
    } else {
        sets.weights[u as usize]
    }
}

// The trials until person v is tried, over all sets: v's own, and one for each of `missed` who comes before v and is present.
pub fn trials_to(people: u8, sets: Absences, missed: People, v: u8) -> u64
    requires { (people ≤ width) × (sets.room ≤ 8) × (v ≤ width) }
    ensures { result ≡ capped (how_many (weight_of sets) people sets.room (number sets.held) + how_many_miss (weight_of sets) people sets.room (number sets.held) (number missed) v) }
{
    let mut sum = how_many(people, sets);
    for u in 0..v {
        sum = capped(sum + trials_of(people, sets, missed, u));
    }
    sum
}

// The trials of person u over all sets, where u is one of `missed`: how many sets there are without u.
fn trials_of(people: u8, sets: Absences, missed: People, u: u8) -> u64
    requires { (people ≤ width) × (sets.room ≤ 8) × (u < width) }
    ensures { result ≡ capped (pick (has (number missed) u) (how_many (but (weight_of sets) u) people sets.room (number sets.held)) 0) }
{
    if missed.has(u) {
        how_many(people, staying(sets, u))
    } else {
        0
    }
}

// The sets that person v does not join.
pub fn staying(sets: Absences, v: u8) -> Absences
    requires { v < width }
    ensures { result ≡ staying sets v }
{
    let mut next = sets;
    next.weights[v as usize] = 0;
    next
}

// The sets that person v joins.
pub fn joined(sets: Absences, v: u8) -> Absences
    requires { 0 < sets.room }
    ensures { JoinedBy sets v result }
{
    Absences {
        held: sets.held.with(v),
        room: sets.room - 1,
        ..sets
    }
}

// The sets as they are summed over after one step more, before which more may go: everybody who joins counts once more.
pub fn raised(sets: Absences) -> Absences
    requires { (u : ℕ) → u < width → weight_of sets u < 255 }
    ensures { Raised sets result }
{
    let mut next = sets;
    for weight in &mut next.weights {
        *weight += 1;
    }
    next
}
