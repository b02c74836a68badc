// Where the parts of a case file stand. The layout itself is one definition, in specs/: the judge, the reader, the parts and the writer all cite
// it. It reads and writes nothing.
//
// Offsets are numbers of any counts: whoever trusts them has tested the limits first.
#![tactic(auto)]

ghost use Rattle.std.specs.Prelude.{◌≡◌, ◌≤◌};
ghost use Rattle.refusals.specs.Offsets.{rows_in, steps_at, tables_at, rules_at, total_of};
ghost use Rattle.layout.specs.Layout.{start_of, end_of};

use cases::Counts;

// The four parts of a file, in its order.
#[derive(Clone, Copy)]
pub enum Part {
    People,
    Steps,
    Tables,
    Rules,
}

// Where the steps part starts. The people part, before it, starts at 24.
pub fn steps_at(n: Counts) -> usize
    ensures { (result ≡ steps_at n) × (result ≤ 131094) }
{
    24 + 2 * (n.people as usize)
}

// Where the tables part starts.
pub fn tables_at(n: Counts) -> usize
    ensures { (result ≡ tables_at n) × (result ≤ 393234) }
{
    steps_at(n) + 4 * (n.steps as usize)
}

// Where the rules part starts.
pub fn rules_at(n: Counts) -> usize
    ensures { (result ≡ rules_at n) × (result ≤ 17179738134) }
{
    tables_at(n) + 4 * rows(n)
}

// Where the file ends.
pub fn total(n: Counts) -> usize
    ensures { result ≡ total_of n }
{
    rules_at(n) + 4 * (n.rules as usize)
}

// How many table rows there are: in each table one per person.
pub fn rows(n: Counts) -> usize
    ensures { (result ≡ rows_in n) × (result ≤ 4294836225) }
{
    (n.tables as usize) * (n.people as usize)
}

// Where a part starts: part by part, as the definition says.
pub fn start(n: Counts, part: Part) -> usize
    ensures { result ≡ start_of n part }
{
    match part {
        Part::People => 24,
        Part::Steps => steps_at(n),
        Part::Tables => tables_at(n),
        Part::Rules => rules_at(n),
    }
}

// Where a part ends.
pub fn end(n: Counts, part: Part) -> usize
    ensures { result ≡ end_of n part }
{
    match part {
        Part::People => steps_at(n),
        Part::Steps => tables_at(n),
        Part::Tables => rules_at(n),
        Part::Rules => total(n),
    }
}
