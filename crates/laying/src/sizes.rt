// The sizes of a case: the counts that the loops end at, each within its limit.
ghost use Rattle.std.specs.Prelude.{◌*◌, ◌≤◌};
ghost use Rattle.cases.specs.Case.{most_people, most_steps, most_tables, most_rules};
ghost use Rattle.boards.specs.Board.{relations};

// Of people, relations, table rows, steps and rules.
#[derive(Clone, Copy)]
pub struct Sizes {
    pub people: u8,
    pub kinds: u8,
    pub rows: usize,
    pub steps: u8,
    pub rules: u8,
    ghost few_people: { people ≤ most_people },
    ghost few_kinds: { kinds ≤ relations },
    ghost few_rows: { rows ≤ most_tables * most_people },
    ghost few_steps: { steps ≤ most_steps },
    ghost few_rules: { rules ≤ most_rules },
}
