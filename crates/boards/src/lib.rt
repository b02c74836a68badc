// The board: what the searches read. It is one array of plain numbers, lent down every search; specs/Board.antt says what stands at each place.
// This crate reads a board and does not know how one is laid out from a case. No public function has a `requires`: past a board's end every number reads
// 0 and every set is of nobody.
#![tactic(auto)]

ghost use Rattle.std.specs.Prelude.{◌≡◌, ◌≤◌, get_or};
ghost use Rattle.sets.specs.Sets.{set_of, common, difference, with};
ghost use Rattle.sets.specs.Stored.{width, number};
ghost use Rattle.cases.specs.Case.{most_steps, most_rules};
ghost use Rattle.boards.specs.Board.{unpacked, allowed_on, named_on, rule_on, both_on, ready_on, full_on, due_on, pair_on, every_pair_on, some_pair_on, kept_on, fits_on};
ghost use Rattle.boards.specs.Looked.{Fits};

use cases::{Case, Filled, Rule, Step, everybody_if, joined_steps, with_step};
use sets::{People, lowest_in, shared, without};

// How many relations there are: "same person", "different person" and the tables.
pub const RELATIONS: usize = Case::TABLES + 2;

// How many rows there are, and how many columns: one for each relation and person.
pub const ROWS: usize = RELATIONS * Case::PEOPLE;

// How many words a set takes.
pub const SET_WORDS: usize = 1;

// How many steps a half of them has, and how many sets of its steps there are.
pub const HALF_STEPS: usize = Case::STEPS / 2;

pub const HALF_SETS: usize = 1 << HALF_STEPS;

// How many entries a table by halves has: one for each set of low steps, then one for each set of high steps.
pub const HALVES: usize = 2 * HALF_SETS;

// Where each part of a board starts. The sets stand first, and their places count sets: the rows at 0, then these.
pub const COLUMNS: usize = ROWS;

pub const LOOPS: usize = COLUMNS + ROWS;

pub const ALLOWED: usize = LOOPS + RELATIONS;

// The plain numbers stand behind the sets, and their places count words.
pub const NAMED: usize = (ALLOWED + Case::STEPS) * SET_WORDS;

pub const RULES: usize = NAMED + Case::STEPS;

pub const READY: usize = RULES + Case::RULES;

pub const COMPLETE: usize = READY + HALVES;

// How many words a board has.
pub const PLACES: usize = COMPLETE + HALVES;

// A board for so many people, as the searches are lent it.
#[derive(Drop)]
pub struct Board {
    pub words: [u32; PLACES],
    pub people: u8,
    ghost known: { people ≤ 32 },
}

// The people who may do step s.
pub fn allowed(board: &[u32; PLACES], s: Step) -> People
    ensures { number result ≡ allowed_on board.now s.0 }
{
    let at = s.0;
    People::at(board, ALLOWED + (at as usize))
}

// The steps that may be filled next.
pub fn ready(board: &[u32; PLACES], p: Filled) -> u8
    ensures { result ≡ ready_on board.now p }
{
    let filled = p.steps;
    (less(in_both(board, READY as u16, filled), filled as u32) % 256) as u8
}

// Those of some people who fit, and the steps whose people were looked at to tell. A struct of its own below `Looked` of the searches: `Fits` names its people.
#[derive(Clone, Copy)]
pub struct Fitted {
    pub people: People,
    pub looked: u8,
}

// Of some people those with whom, placed at step s, every rule is kept that s completes.
// Board, position and step stay parameters of their own: every search passes them so, and a struct of them would be made to be taken apart in `pair`.
pub fn fits(board: &[u32; PLACES], p: Filled, s: Step, among: People) -> People
    ensures { number result ≡ common width (number among) (fits_on board.now p s.0) }
{
    fitting(board, p, s, among).people
}

// The same, with the steps looked at.
pub fn fitting(board: &[u32; PLACES], p: Filled, s: Step, among: People) -> Fitted
    ensures { Fits board.now p s.0 (number among) result }
{
    let due = due(board, p, s);
    if due == 0 {
        return Fitted {
            people: among,
            looked: 0,
        };
    }
    narrowed(board, p, s, among, due)
}

// The same, where some rules are due. Where a rule leaves nobody, no other is asked.
fn narrowed(board: &[u32; PLACES], p: Filled, s: Step, among: People, due: u32) -> Fitted
    requires { due ≡ due_on board.now p s.0 }
    ensures { Fits board.now p s.0 (number among) result }
{
    let mut kept = among;
    let mut looked: u8 = 0;
    let mut left = due;
    while let Some(i) = lowest_in(left) {
        let asked = rule(board, i);
        looked = joined_steps(looked, steps_of(asked));
        kept = kept.common(kept_by(board, p, s, asked));
        if kept.is_none() {
            return Fitted {
                people: kept,
                looked,
            };
        }
        left = without(left, i);
    }
    Fitted {
        people: kept,
        looked,
    }
}

// The steps of a rule: its own and those of X.
fn steps_of(rule: Rule) -> u8
    ensures { result ≡ with most_steps rule.group rule.step.0 }
{
    with_step(rule.group, rule.step)
}

// The test of a single rule, as `keepers` makes it. Where X has one member every form asks for the one pair, and there is nothing to go over.
fn kept_by(board: &[u32; PLACES], p: Filled, s: Step, rule: Rule) -> People
    ensures { number result ≡ set_of (kept_on board.now p s.0 rule) width }
{
    let group = rule.group as u32;
    match lowest_in(group) {
        Some(x) if without(group, x) == 0 => pair(board, p, s, rule, Step(x)),
        _ => keepers(board, p, s, rule),
    }
}

// The test of a single rule: the people with whom, placed at step s, it is kept. A pair is (person of the rule's step s, person of a member of its set X).
// There is one case for each form. The form is a number and no enum: a rule on a board may have any, and `needed` says what each asks. In the examples a
// position lists the persons of step 0, step 1 and so on, the last of them placed next.
fn keepers(board: &[u32; PLACES], p: Filled, s: Step, rule: Rule) -> People
    ensures { number result ≡ set_of (kept_on board.now p s.0 rule) width }
{
    let form = rule.form;
    match form {
        // Form 1: X has one member, so every pair is the pair with it, and that is in the relation.
        // The campfire, "different person", s = 1, X = {0}: 0 1 keeps it, the pair is (1,0); 1 1 breaks it, the pair is (1,1).
        1 => in_every_pair(board, p, s, rule),
        // Form 2: some pair is in the relation, one is enough.
        // Table {(0,1)}, s = 2, X = {0,1}: 1 2 0 keeps it by (0,1); 0 0 1 breaks it: both pairs are (1,0), and a pair is not turned round.
        2 => in_some_pair(board, p, s, rule),
        // Form 3, the only other form in a good case: every pair is in the relation.
        // The same table, s and X: 1 1 0 keeps it, both pairs are (0,1); 1 2 0 breaks it, since (0,2) is not in the table.
        _ => in_every_pair(board, p, s, rule),
    }
}

// The people with whom every pair is in the relation. Where a pair leaves nobody, no other is asked.
fn in_every_pair(board: &[u32; PLACES], p: Filled, s: Step, rule: Rule) -> People
    ensures { number result ≡ every_pair_on board.now p s.0 rule }
{
    let mut every = everybody_if(true);
    let mut left = rule.group as u32;
    while let Some(x) = lowest_in(left) {
        every = every.common(pair(board, p, s, rule, Step(x)));
        if every.is_none() {
            return every;
        }
        left = without(left, x);
    }
    every
}

// The people with whom some pair is in the relation. Where a pair leaves nobody out, no other is asked.
fn in_some_pair(board: &[u32; PLACES], p: Filled, s: Step, rule: Rule) -> People
    ensures { number result ≡ some_pair_on board.now p s.0 rule }
{
    let mut out = everybody_if(true);
    let mut left = rule.group as u32;
    while let Some(x) = lowest_in(left) {
        out = out.difference(pair(board, p, s, rule, Step(x)));
        if out.is_none() {
            return everybody_if(true);
        }
        left = without(left, x);
    }
    everybody_if(true).difference(out)
}

// The people with whom, placed at step s, the pair (person of the rule's step, person of x) is in the rule's relation.
fn pair(board: &[u32; PLACES], p: Filled, s: Step, rule: Rule, x: Step) -> People
    ensures { number result ≡ pair_on board.now p s.0 rule.relation rule.step.0 x.0 }
{
    let k = rule.relation as usize;
    let own = rule.step;
    let of_x = p.person(x).0;
    if own.0 == s.0 {
        if x.0 == s.0 {
            return People::at(board, LOOPS + k);
        }
        return People::at(board, COLUMNS + (k * Case::PEOPLE + (of_x as usize)));
    }
    let of_own = p.person(own).0;
    let row = People::at(board, k * Case::PEOPLE + (of_own as usize));
    if x.0 == s.0 {
        return row;
    }
    everybody_if(row.has(of_x))
}

// The rules that step s completes, bit i for rule i.
fn due(board: &[u32; PLACES], p: Filled, s: Step) -> u32
    ensures { result ≡ due_on board.now p s.0 }
{
    shared(named(board, s), full(board, p, s))
}

// The rules that name step s.
fn named(board: &[u32; PLACES], s: Step) -> u32
    ensures { result ≡ named_on board.now s.0 }
{
    let at = s.0;
    number_at(board, NAMED + (at as usize))
}

// The rules whose steps are all filled once step s is.
fn full(board: &[u32; PLACES], p: Filled, s: Step) -> u32
    ensures { result ≡ full_on board.now p s.0 }
{
    let filled = with_step(p.steps, s);
    in_both(board, COMPLETE as u16, filled)
}

// What a table by halves, which starts at a place, tells of a set of steps: what is in its entry for the low half and in that for the high half.
fn in_both(board: &[u32; PLACES], start: u16, f: u8) -> u32
    ensures { result ≡ both_on board.now start f }
{
    let low = f % (HALF_SETS as u8);
    let high = f / (HALF_SETS as u8) % (HALF_SETS as u8);
    let first = start as usize;
    shared(
        number_at(board, first + (low as usize)),
        number_at(board, first + (HALF_SETS + (high as usize))),
    )
}

// The set without those that are gone.
pub fn less(set: u32, gone: u32) -> u32
    ensures { result ≡ difference most_rules set gone }
{
    set & !gone
}

// Rule i.
fn rule(board: &[u32; PLACES], i: u8) -> Rule
    ensures { result ≡ rule_on board.now i }
{
    unpack(number_at(board, RULES + (i as usize)))
}

// The rule that one number stores.
fn unpack(word: u32) -> Rule
    ensures { result ≡ unpacked word }
{
    let step = Step((word / 65536 % 256) as u8);
    Rule {
        form: (word % 256) as u8,
        relation: (word / 256 % 256) as u8,
        step: step,
        group: (word / 16777216 % 256) as u8,
    }
}

// The number at a place, 0 past the end.
fn number_at(board: &[u32], place: usize) -> u32
    ensures { result ≡ get_or board.now place 0 }
{
    board.get(place).copied().unwrap_or(0)
}
