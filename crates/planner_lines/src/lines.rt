// Lines of input: a word, and numbers.
use crate::entries::Part;
use crate::numbers::Numbers;
use cases::{Case, Counts, Person, Position};
use sets::People;

// What a line says.
#[derive(Clone, Copy)]
pub enum Line<'a> {
    Change(Change<'a>),
    Question(Question<'a>),
    Remark,
}

// What a line makes of the case.
#[derive(Clone, Copy)]
pub enum Change<'a> {
    Empty,
    Counts(Counts),
    Entries(Part, Numbers<'a>),
}

// What a line asks about the case.
#[derive(Clone, Copy)]
pub enum Question<'a> {
    Plan(u32),
    Static(Terms),
    Decremental(Terms),
    OneShot(Terms),
    Dynamic(Terms),
    Advice(Terms, People, Position),
    Away(Terms, Position),
    Follow(Terms, Numbers<'a>),
    Dodge(Terms, u32),
}

// What a question about absence is asked under: the limit on trials, and how many may be absent.
#[derive(Clone, Copy, Debug, PartialEq, Eq)]
pub struct Terms {
    pub limit: u32,
    pub t: u32,
}

impl Terms {
    fn read(numbers: &mut Numbers<'_>) -> Terms {
        Terms {
            limit: numbers.get(),
            t: numbers.get(),
        }
    }
}

impl Change<'_> {
    // The case with this change.
    pub fn made(self, mut case: Case) -> Case {
        match self {
            Change::Empty => Case::empty(),
            Change::Counts(counts) => {
                case.counts = counts;
                case
            }
            Change::Entries(part, numbers) => part.filled(case, numbers),
        }
    }
}

impl<'a> From<&'a [u8]> for Line<'a> {
    // A word counts where a space ends it, but for "empty".
    fn from(text: &'a [u8]) -> Line<'a> {
        if text.starts_with(b"empty") {
            return Line::Change(Change::Empty);
        }
        let Some(end) = text.iter().position(|b| *b == b' ') else {
            return Line::Remark;
        };
        let (word, rest) = text.split_at(end);
        said(word, Numbers::of(rest))
    }
}

// What a word and numbers say.
fn said<'a>(word: &[u8], mut numbers: Numbers<'a>) -> Line<'a> {
    match word {
        b"counts" => Line::Change(Change::Counts(counts(&mut numbers))),
        b"people" => Line::Change(Change::Entries(Part::People, numbers)),
        b"steps" => Line::Change(Change::Entries(Part::Steps, numbers)),
        b"rows" => Line::Change(Change::Entries(Part::Rows, numbers)),
        b"rules" => Line::Change(Change::Entries(Part::Rules, numbers)),
        b"plan" => Line::Question(Question::Plan(numbers.get())),
        b"static" => Line::Question(Question::Static(Terms::read(&mut numbers))),
        b"decremental" => Line::Question(Question::Decremental(Terms::read(&mut numbers))),
        b"one-shot" => Line::Question(Question::OneShot(Terms::read(&mut numbers))),
        b"dynamic" => Line::Question(Question::Dynamic(Terms::read(&mut numbers))),
        b"advice" => Line::Question(Question::Advice(
            Terms::read(&mut numbers),
            People::from_word(numbers.get()),
            position(&mut numbers),
        )),
        b"away" => Line::Question(Question::Away(
            Terms::read(&mut numbers),
            position(&mut numbers),
        )),
        b"follow" => Line::Question(Question::Follow(Terms::read(&mut numbers), numbers)),
        b"dodge" => Line::Question(Question::Dodge(Terms::read(&mut numbers), numbers.get())),
        _ => Line::Remark,
    }
}

fn counts(numbers: &mut Numbers<'_>) -> Counts {
    Counts {
        people: numbers.get(),
        steps: numbers.get(),
        roles: numbers.get(),
        tables: numbers.get(),
        rules: numbers.get(),
    }
}

// A position: its length, and all its entries.
fn position(numbers: &mut Numbers<'_>) -> Position {
    let len = numbers.get();
    let mut who = [Person(0); Case::STEPS];
    for person in who.iter_mut() {
        *person = Person(numbers.get());
    }
    Position { who, len }
}
