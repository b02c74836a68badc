// Lays a case out as a board, once before a search. It knows what a case means and what stands where on a board; the searches know neither.
// Each part is put onto the lent board by a function of its own, which takes what it reads; `pieces` makes the entries. Loops end at the case's counts, but for
// those whose number of turns is best known beforehand: over the steps, and over the entries of a table by halves.
#![tactic(auto)]

mod sizes;

ghost use Rattle.std.specs.Prelude.{◌≡◌, ℕ, ◌+◌, ◌*◌, ◌≤◌, ◌<◌, get_or};
ghost use Rattle.sets.specs.Stored.{number, no_people};
ghost use Rattle.cases.specs.Case.{most_people, most_steps, most_tables, most_rules, zero_step, zero_rule};
ghost use Rattle.boards.specs.Board.{relations, halves, columns_from, loops_from, allowed_from, named_from, rules_from, places};
ghost use Rattle.pieces.specs.Pieces.{row_in, column_in, loops_in, allowed_in, half_in, laid_from, packed};
ghost use Rattle.laying.specs.Laid.{blank_board, laid_out};
ghost use Rattle.laying.specs.Ready.{Bounded};
ghost use Rattle.laying.specs.Putting.{laid_blocks, Sized};

use boards::{ALLOWED, COLUMNS, COMPLETE, HALVES, LOOPS, NAMED, PLACES, READY, RULES};
use cases::{Case, Counts, Rule, StepEntry};
use pieces::{
    Order, allowed, column, first_of, following_words, half, loops, named_words, pack, row,
};
use sets::People;
use sizes::Sizes;

// The board of a case.
pub fn lay_out(c: Case, order: Order) -> [u32; PLACES]
    requires { Bounded c.counts }
    ensures { result ≡ laid_out c order }
{
    let mut board = [0u32; PLACES];
    lay_onto(&mut board, c, order);
    board
}

// Lays a case out on a blank board.
pub fn lay_onto(board: &mut [u32; PLACES], c: Case, order: Order)
    requires { Bounded c.counts × (board.old ≡ blank_board) }
    ensures { board.new ≡ laid_out c order }
{
    let n = sizes_of(c.counts);
    let held = c.people;
    let chain = c.steps;
    let listed = c.rules;
    let mut words = [0u32; Case::ROWS];
    put_table_words(&mut words, c, n);
    let named = named_words(listed, n.rules);
    let following = following_words(chain, order, n.steps);
    put_rows(board, &words, n);
    put_columns(board, n);
    put_loops(board, n);
    put_allowed(board, &held, chain, n);
    put_named(board, &named);
    put_rules(board, listed, n);
    put_halves(board, READY as u16, &following, first_of(n.steps));
    put_halves(board, COMPLETE as u16, &named, first_of(n.rules));
}

// The sizes of a case with these counts.
fn sizes_of(n: Counts) -> Sizes
    requires { Bounded n }
    ensures { Sized n result }
{
    Sizes {
        people: capped(n.people as u8, Case::PEOPLE as u8),
        kinds: capped(n.tables as u8, Case::TABLES as u8) + 2,
        rows: (n.tables as usize) * (n.people as usize),
        steps: capped(n.steps as u8, Case::STEPS as u8),
        rules: capped(n.rules as u8, Case::RULES as u8),
    }
}

// A count, which is within its limit: seen to be, so that no turn of a loop up to it tests its place.
fn capped(n: u8, most: u8) -> u8
    requires { n ≤ most }
    ensures { result ≡ n }
{
    n.min(most)
}

// Puts the words of a case's table rows. Without a table no row is copied.
fn put_table_words(out: &mut [u32; Case::ROWS], c: Case, n: Sizes)
    ensures { out.new ≡ laid_from 0 n.rows (λ i. number (get_or c.rows i no_people)) out.old }
{
    if n.rows == 0 {
        return;
    }
    let rows = c.rows;
    put_words(out, rows, n);
}

// Puts the words of the first of these rows, as many as the tables have.
fn put_words(out: &mut [u32; Case::ROWS], rows: [People; Case::ROWS], n: Sizes)
    ensures { out.new ≡ laid_from 0 n.rows (λ i. number (get_or rows i no_people)) out.old }
{
    put(out, 0, n.rows as u8, |i| {
        let row = rows[i as usize];
        row.word()
    });
}

// The rows, relation by relation.
fn put_rows(board: &mut [u32; PLACES], words: &[u32; Case::ROWS], n: Sizes)
    ensures { board.new ≡ laid_blocks 0 n.kinds n.people (row_in words.now n.people) board.old }
{
    for k in 0..n.kinds {
        put_row(board, words, n, k);
    }
}

// The rows of relation k, one for each person.
fn put_row(board: &mut [u32; PLACES], words: &[u32; Case::ROWS], n: Sizes, k: u8)
    requires { k < relations }
    ensures { board.new ≡ laid_from (k * most_people) n.people (row_in words.now n.people k) board.old }
{
    put(board, (k as usize) * Case::PEOPLE, n.people, |u| {
        row(words, n.people, k, u).word()
    });
}

// The columns, relation by relation, read off the rows.
fn put_columns(board: &mut [u32; PLACES], n: Sizes)
    ensures { board.new ≡ laid_blocks columns_from n.kinds n.people (column_in board.old) board.old }
{
    for k in 0..n.kinds {
        put_column(board, n, k);
    }
}

// The columns of relation k, one for each person.
fn put_column(board: &mut [u32; PLACES], n: Sizes, k: u8)
    requires { k < relations }
    ensures { board.new ≡ laid_from (columns_from + k * most_people) n.people (column_in board.old k) board.old }
{
    for v in 0..n.people {
        let set = column(board, k, v);
        board[COLUMNS + (k as usize) * Case::PEOPLE + (v as usize)] = set.word();
    }
}

// For each relation the people who are in it with themselves.
fn put_loops(board: &mut [u32; PLACES], n: Sizes)
    ensures { board.new ≡ laid_from loops_from n.kinds (loops_in board.old n.people) board.old }
{
    for k in 0..n.kinds {
        let set = loops(board, n.people, k);
        board[LOOPS + (k as usize)] = set.word();
    }
}

// For each step the people who may do it.
fn put_allowed(
    board: &mut [u32; PLACES],
    held: &[u16; Case::PEOPLE],
    steps: [StepEntry; Case::STEPS],
    n: Sizes,
)
    ensures { board.new ≡ laid_from allowed_from n.steps (λ s. allowed_in held.now n.people (get_or steps s zero_step).roles) board.old }
{
    put(board, ALLOWED, n.steps, |s| {
        let step = steps[s as usize];
        allowed(held, n.people, step.roles).word()
    });
}

// For each step the rules that name it.
fn put_named(board: &mut [u32; PLACES], named: &[u32; Case::STEPS])
    ensures { board.new ≡ laid_from named_from most_steps (λ s. get_or named.now s 0) board.old }
{
    put(board, NAMED, Case::STEPS as u8, |s| named[s as usize]);
}

// The rules, each as one number.
fn put_rules(board: &mut [u32; PLACES], rules: [Rule; Case::RULES], n: Sizes)
    ensures { board.new ≡ laid_from rules_from n.rules (λ i. packed (get_or rules i zero_rule)) board.old }
{
    put(board, RULES, n.rules, |i| {
        let rule = rules[i as usize];
        pack(rule)
    });
}

// A table by halves, from a place on: `waits` has for each step those that wait for it, of all that there are.
fn put_halves(board: &mut [u32; PLACES], start: u16, waits: &[u32; Case::STEPS], whole: u32)
    requires { start + halves ≤ places }
    ensures { board.new ≡ laid_from start halves (half_in waits.now whole) board.old }
{
    put(
        board,
        start as usize,
        HALVES as u8,
        |j| half(waits, whole, j),
    );
}

// Puts n entries, from a place on. A closure makes each of them.
fn put<const N: usize, F: Fn(u8) -> u32>(out: &mut [u32; N], start: usize, n: u8, entry: F)
    requires room { start + n ≤ N }
    requires callable { (i : ℕ) → i < n → F.pre entry i }
    ensures { (f : ℕ → ℕ) → ((i : ℕ) → i < n → (told : ℕ) → F.post entry i told → told ≡ f i) → out.new ≡ laid_from start n f out.old }
{
    for i in 0..n {
        out[start + (i as usize)] = entry(i);
    }
}
