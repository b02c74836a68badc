// What stands at a place of a board: each entry, made from the pieces that a function is lent. It knows no whole case and puts nothing onto a board.
// Loops end at the case's counts, but for those whose number of turns is best known beforehand: over the steps, and over the people whose rows a column is
// gathered from.
#![tactic(auto)]

ghost use Rattle.std.specs.Prelude.{◌≡◌, ◌≤◌, ◌<◌, ◌&&◌, ℕ, Bool, ltb};
ghost use Rattle.sets.specs.Lists.{pick};
ghost use Rattle.sets.specs.Sets.{has, set_of, with, difference, everybody};
ghost use Rattle.sets.specs.Stored.{width, number, set_at};
ghost use Rattle.words.specs.Part.{table};
ghost use Rattle.cases.specs.Case.{most_people, most_steps, most_rules};
ghost use Rattle.boards.specs.Board.{halves, row_place};
ghost use Rattle.pieces.specs.Pieces.{row_in, gathered_in, column_in, having_in, loops_in, allowed_in, preceding_in, named_by, preceded_by, waits_in, waiting_on, half_in, laid_from, packed};

use boards::{HALF_SETS, HALF_STEPS, PLACES, less};
use cases::{Case, Rule, StepEntry, with_step};
use sets::{People, holds, share, with};

// In which order the steps are filled: as they are listed, or as the desk chooses among those whose preceding steps are filled.
#[derive(Clone, Copy)]
pub enum Order {
    Listed,
    Chosen,
}

// The people v with (u, v) in relation k: "same person", "different person", then the tables.
pub fn row(words: &[u32; Case::ROWS], people: u8, k: u8, u: u8) -> People
    ensures { number result ≡ row_in words.now people k u }
{
    let all = People::everybody(people);
    if k == 0 {
        return all.common(People::none().with(u));
    }
    if k == 1 {
        return all.without(u);
    }
    all.common(People::at(words, ((k - 2) as usize) * (people as usize) + (u as usize)))
}

// The column of person v in relation k: their row where the relation is the same both ways, as "same person" and "different person" are.
pub fn column(board: &[u32; PLACES], k: u8, v: u8) -> People
    ensures { number result ≡ column_in board.now k v }
{
    if k < 2 {
        return row_on(board, k, v);
    }
    gathered(board, k, v)
}

// The people whose row in relation k has v.
fn gathered(board: &[u32; PLACES], k: u8, v: u8) -> People
    ensures { number result ≡ gathered_in board.now k v }
{
    passing(Case::PEOPLE as u8, |u| row_on(board, k, u).has(v))
}

// The people who are in relation k with themselves: everybody is the same person, nobody a different one, and the tables say it by their rows.
pub fn loops(board: &[u32; PLACES], people: u8, k: u8) -> People
    ensures { number result ≡ loops_in board.now people k }
{
    match k {
        0 => People::everybody(people),
        1 => People::none(),
        _ => having_themselves(board, k),
    }
}

// The people whose row in relation k has themselves.
fn having_themselves(board: &[u32; PLACES], k: u8) -> People
    ensures { number result ≡ having_in board.now k }
{
    passing(Case::PEOPLE as u8, |u| row_on(board, k, u).has(u))
}

// The row of person u in relation k, as it stands on a board.
fn row_on(board: &[u32; PLACES], k: u8, u: u8) -> People
    ensures { number result ≡ set_at board.now (row_place k u) }
{
    People::at(board, (k as usize) * Case::PEOPLE + (u as usize))
}

// The people one of whose roles is wanted.
pub fn allowed(held: &[u16; Case::PEOPLE], people: u8, wanted: u16) -> People
    requires { people ≤ most_people }
    ensures { number result ≡ allowed_in held.now people wanted }
{
    passing(people, |u| share(held[u as usize], wanted))
}

// Of the first n people those who pass a test.
fn passing<F: Fn(u8) -> bool>(n: u8, test: F) -> People
    requires few { n ≤ most_people }
    requires callable { (u : ℕ) → u < n → F.pre test u }
    ensures { (passes : ℕ → Bool) → ((u : ℕ) → u < n → (told : Bool) → F.post test u told → told ≡ passes u) → number result ≡ set_of (λ u. ltb u n && passes u) width }
{
    let mut set = People::none();
    for u in 0..n {
        set = with_if(set, u, test(u));
    }
    set
}

// For each step those of the first n rules that name it. An array and how many are in use, as a case holds them; so it is with steps and people.
pub fn named_words(rules: [Rule; Case::RULES], n: u8) -> [u32; Case::STEPS]
    requires { n ≤ most_rules }
    ensures { result ≡ table (waits_in (named_by rules) n) most_steps }
{
    waiters(n, |i| {
        let rule = rules[i as usize];
        with_step(rule.group, rule.step)
    })
}

// For each step those of the first n steps that it must precede.
pub fn following_words(steps: [StepEntry; Case::STEPS], order: Order, n: u8) -> [u32; Case::STEPS]
    requires { n ≤ most_steps }
    ensures { result ≡ table (waits_in (preceded_by steps order) n) most_steps }
{
    waiters(n, |s| {
        let entry = steps[s as usize];
        before(entry, order, s)
    })
}

// For each step those of the first n that wait for it. A closure tells the steps that each waits for.
fn waiters<F: Fn(u8) -> u8>(n: u8, on: F) -> [u32; Case::STEPS]
    requires few { n ≤ most_rules }
    requires callable { (i : ℕ) → i < n → F.pre on i }
    ensures { (steps : ℕ → ℕ) → ((i : ℕ) → i < n → (told : ℕ) → F.post on i told → told ≡ steps i) → result ≡ table (waits_in steps n) most_steps }
{
    let mut out = [0u32; Case::STEPS];
    for i in 0..n {
        wait(&mut out, on(i), i);
    }
    out
}

// Puts i to those that wait for each step of a set.
fn wait(waits: &mut [u32; Case::STEPS], on: u8, i: u8)
    ensures { waits.new ≡ laid_from 0 most_steps (waiting_on waits.old on i) waits.old }
{
    for x in 0..Case::STEPS {
        waits[x] = with_if_in(waits[x], i, on, x as u8);
    }
}

// The steps that must precede step s: as listed, all lower ones.
fn before(step: StepEntry, order: Order, s: u8) -> u8
    requires { s < most_steps }
    ensures { result ≡ preceding_in step order s }
{
    match order {
        Order::Listed => (1 << s) - 1,
        Order::Chosen => step.before,
    }
}

// A rule as one number, which a board's reader takes apart again.
pub fn pack(rule: Rule) -> u32
    ensures { result ≡ packed rule }
{
    let step = rule.step.0;
    (rule.form as u32)
        + ((rule.relation as u32) * 256 + ((step as u32) * 65536 + (rule.group as u32) * 16777216))
}

// Entry j of a table by halves: those that wait for no step of its half but such as are in its set.
pub fn half(waits: &[u32; Case::STEPS], whole: u32, j: u8) -> u32
    requires { j < halves }
    ensures { result ≡ half_in waits.now whole j }
{
    let first = j / (HALF_SETS as u8) * (HALF_STEPS as u8);
    let mut set = whole;
    for x in 0..(HALF_STEPS as u8) {
        set = less_unless(set, waits[(first + x) as usize], holds(j as u16, x));
    }
    set
}

// The first n of 32, as a set.
pub fn first_of(n: u8) -> u32
    requires { n ≤ most_rules }
    ensures { result ≡ everybody most_rules n }
{
    if n < 32 { (1 << n) - 1 } else { u32::MAX }
}

// The set with person u, where they are wanted.
fn with_if(set: People, u: u8, wanted: bool) -> People
    ensures { number result ≡ pick wanted (with width (number set) u) (number set) }
{
    if wanted { set.with(u) } else { set }
}

// The set with i, where x is one of the steps.
fn with_if_in(set: u32, i: u8, steps: u8, x: u8) -> u32
    ensures { result ≡ pick (has steps x) (with most_rules set i) set }
{
    if holds(steps as u16, x) {
        with(set, i)
    } else {
        set
    }
}

// The set without those that are gone, unless they stay.
fn less_unless(set: u32, gone: u32, stay: bool) -> u32
    ensures { result ≡ pick stay set (difference most_rules set gone) }
{
    if stay { set } else { less(set, gone) }
}
