// Whole games, played with advice and with away.
use crate::saying::Answer;
use cases::{Case, Person, Position};
use planner::{AdviceAnswer, AwayAnswer, advice, away};
use planner_lines::{Numbers, Terms};
use refusals::Refusal;
use sets::People;
use std::{fmt, io};

// A case, and what its questions are asked under.
#[derive(Clone, Copy)]
pub struct Game {
    pub case: Case,
    pub terms: Terms,
}

// What became of a desk: somebody it wants is kept away, it cannot place somebody, or it completes a plan.
#[derive(Clone, Copy, Debug, PartialEq, Eq)]
enum Played {
    KeptAway,
    Cannot,
    Completes,
}

// How many desks there were of each.
#[derive(Clone, Copy, Debug, Default, PartialEq, Eq)]
pub struct Tally {
    kept_away: u32,
    cannot: u32,
    completes: u32,
}

impl Game {
    pub fn advice(self, position: Position, absent: People) -> Result<AdviceAnswer, Refusal> {
        advice(self.case, position, self.terms.t, absent, self.terms.limit)
    }

    pub fn away(self, position: Position) -> Result<AwayAnswer, Refusal> {
        away(self.case, position, self.terms.t, self.terms.limit)
    }

    // Asks for advice at the start and follows it, for as long as it names somebody and there is a set of absent people.
    pub fn follow(self, rt: &impl Print, absent: Numbers<'_>) -> io::Result<()> {
        let mut position = Position::start();
        for word in absent {
            let answer = self.advice(position, People::from_word(word));
            rt.print(Answer::Advice(answer))?;
            let Ok(AdviceAnswer::Person(person, _)) = answer else {
                return Ok(());
            };
            position = position.placed(person);
        }
        Ok(())
    }

    // Plays away against so many desks.
    pub fn dodge(self, desks: u32) -> Tally {
        (0..desks)
            .map(|desk| self.played(desk))
            .fold(Tally::default(), Tally::with)
    }

    // A desk is a list of persons, one for each step: those of desk d are the digits of d, the lowest first. Before each step away is asked, and names
    // whom to keep away.
    fn played(self, desk: u32) -> Played {
        let people = u32::from(self.case.counts.people);
        let mut position = Position::start();
        let mut rest = desk;
        for _ in 0..self.case.counts.steps {
            let person = Person((rest.checked_rem(people).unwrap_or(0) & 0xff) as u8);
            if self.keeps_away(position, person) {
                return Played::KeptAway;
            }
            position = position.placed(person);
            if !self.allows(position) {
                return Played::Cannot;
            }
            rest = rest.checked_div(people).unwrap_or(0);
        }
        Played::Completes
    }

    fn keeps_away(self, position: Position, person: Person) -> bool {
        match self.away(position) {
            Ok(AwayAnswer::People(set, _)) => set.has(person.0),
            _ => false,
        }
    }

    // Is this a valid position? Asked of the case with one step more, so that it may fill the chain.
    fn allows(self, position: Position) -> bool {
        let mut case = self.case;
        if usize::from(case.counts.steps) < Case::STEPS {
            case.counts.steps += 1;
        }
        away(case, position, 0, 0).is_ok()
    }
}

impl Tally {
    fn with(mut self, desk: Played) -> Tally {
        let count = match desk {
            Played::KeptAway => &mut self.kept_away,
            Played::Cannot => &mut self.cannot,
            Played::Completes => &mut self.completes,
        };
        *count = count.saturating_add(1);
        self
    }
}

impl fmt::Display for Tally {
    fn fmt<W: fmt::Write>(&self, f: &mut fmt::Formatter<W>) -> fmt::Result {
        let Tally {
            kept_away,
            cannot,
            completes,
        } = *self;
        write!(
            f,
            ": kept away {kept_away} cannot {cannot} completes {completes}"
        )
    }
}
