// Questions, and what they are answered.
use second_files::Turned;
use std::fmt;

// The five questions, in the order in which they are told.
#[derive(Clone, Copy, PartialEq, Eq)]
pub enum Question {
    Plan,
    Static,
    Decremental,
    OneShot,
    Dynamic,
}

impl Question {
    pub const ALL: [Question; 5] = [
        Question::Plan,
        Question::Static,
        Question::Decremental,
        Question::OneShot,
        Question::Dynamic,
    ];
}

impl fmt::Display for Question {
    fn fmt<W: fmt::Write>(&self, f: &mut fmt::Formatter<W>) -> Result<(), fmt::Error> {
        f.write_str(match self {
            Question::Plan => "plan",
            Question::Static => "static",
            Question::Decremental => "decremental",
            Question::OneShot => "one-shot",
            Question::Dynamic => "dynamic",
        })
    }
}

// What a question is answered. A no shows a verdict's set, a yes the plan's persons, the person or the set of people, where there is one; else 0.
// Nothing is answered wrong by the second search: a planner that shows what it must not is told so.
#[derive(Clone, Copy, PartialEq, Eq)]
pub enum Answer {
    No { shown: usize, trials: usize },
    Yes { shown: usize, trials: usize },
    Limit { trials: usize },
    Refused(Turned),
    Wrong { shown: usize, trials: usize },
}

// Walks of more trials are not compared to their end.
pub const MOST_TRIALS: usize = 20000;

impl Answer {
    pub fn is_yes(self) -> bool {
        matches!(&self, Answer::Yes { .. })
    }

    // The trials, if there are any to count.
    pub fn trials(self) -> usize {
        match self {
            Answer::No { trials, .. } => trials,
            Answer::Yes { trials, .. } => trials,
            Answer::Limit { trials } => trials,
            Answer::Refused(_) => 0,
            Answer::Wrong { trials, .. } => trials,
        }
    }

    // Is it a walk that is not compared to its end?
    pub fn is_long(self) -> bool {
        MOST_TRIALS < self.trials()
    }

    // The answer under a limit.
    pub fn within(self, limit: usize) -> Answer {
        if limit < self.trials() {
            Answer::Limit { trials: limit }
        } else {
            self
        }
    }
}

// What is good is answered yes.
impl From<Result<(), Turned>> for Answer {
    fn from(judged: Result<(), Turned>) -> Answer {
        match judged {
            Ok(()) => Answer::Yes {
                shown: 0,
                trials: 0,
            },
            Err(turned) => Answer::Refused(turned),
        }
    }
}

impl fmt::Display for Answer {
    fn fmt<W: fmt::Write>(&self, f: &mut fmt::Formatter<W>) -> Result<(), fmt::Error> {
        match *self {
            Answer::No { shown, trials } => write!(f, "says 0 shows {shown} trials {trials}"),
            Answer::Yes { shown, trials } => write!(f, "says 1 shows {shown} trials {trials}"),
            Answer::Limit { trials } => write!(f, "says 2 shows 0 trials {trials}"),
            Answer::Refused(turned) => {
                let number = turned.reason.number();
                write!(f, "says 3 shows {number} trials {}", turned.place)
            }
            Answer::Wrong { shown, trials } => write!(f, "says 9 shows {shown} trials {trials}"),
        }
    }
}

// The answers to the five questions.
#[derive(Clone, Copy)]
pub struct Five {
    pub plan: Answer,
    pub fixed: Answer,
    pub growing: Answer,
    pub struck: Answer,
    pub changing: Answer,
}

impl Five {
    // In the order of the questions.
    pub fn all(self) -> [Answer; 5] {
        [
            self.plan,
            self.fixed,
            self.growing,
            self.struck,
            self.changing,
        ]
    }
}
