// What was compared, counted.
use second::{Answer, Five, Question};
use std::fmt;

// How often something was met.
#[derive(Clone, Copy)]
pub struct Count(usize);

impl Count {
    const NONE: Count = Count(0);

    pub fn more(&mut self) {
        self.0 = self.0.saturating_add(1);
    }

    pub fn number(self) -> usize {
        self.0
    }
}

impl fmt::Display for Count {
    fn fmt<W: fmt::Write>(&self, f: &mut fmt::Formatter<W>) -> Result<(), fmt::Error> {
        write!(f, "{}", self.0)
    }
}

// Which kind of input is in hand.
#[derive(Clone, Copy, PartialEq, Eq)]
pub enum Kind {
    Damaged,
    Small,
    Middle,
    Large,
}

// What is compared. Besides the questions: that a file is written again and a case read again, the parts, the text, and that who wins a harder game wins
// an easier one.
#[derive(Clone, Copy, PartialEq, Eq)]
pub enum Asked {
    Question(Question),
    Advice,
    Away,
    Judging,
    Writing,
    FileAgain,
    CaseAgain,
    PeoplePart,
    StepsPart,
    TablesPart,
    RulesPart,
    Text,
    Chain,
    Exported(Function),
}

// The exported functions.
#[derive(Clone, Copy, PartialEq, Eq)]
pub enum Function {
    Judge,
    Question(Question),
    Advice,
    Away,
    Verdicts,
}

impl Function {
    fn number(self) -> usize {
        match self {
            Function::Judge => 0,
            Function::Question(question) => 1 + question as usize,
            Function::Advice => 6,
            Function::Away => 7,
            Function::Verdicts => 8,
        }
    }
}

// The number under which a difference is printed.
impl fmt::Display for Asked {
    fn fmt<W: fmt::Write>(&self, f: &mut fmt::Formatter<W>) -> Result<(), fmt::Error> {
        let number = match *self {
            Asked::Question(question) => question as usize,
            Asked::Advice => 5,
            Asked::Away => 6,
            Asked::Judging => 7,
            Asked::Writing => 8,
            Asked::FileAgain => 9,
            Asked::CaseAgain => 10,
            Asked::PeoplePart => 11,
            Asked::StepsPart => 12,
            Asked::TablesPart => 13,
            Asked::RulesPart => 14,
            Asked::Text => 15,
            Asked::Chain => 16,
            Asked::Exported(function) => function.number().saturating_add(20),
        };
        write!(f, "{number}")
    }
}

// Calls by what they must say.
#[derive(Clone, Copy)]
pub struct Calls {
    yes: Count,
    no: Count,
    limit: Count,
    refused: Count,
}

impl Calls {
    const NONE: Calls = Calls {
        yes: Count::NONE,
        no: Count::NONE,
        limit: Count::NONE,
        refused: Count::NONE,
    };

    fn count(&mut self, ours: Answer) {
        match ours {
            Answer::Yes { .. } => self.yes.more(),
            Answer::No { .. } => self.no.more(),
            Answer::Limit { .. } => self.limit.more(),
            Answer::Refused(_) => self.refused.more(),
            Answer::Wrong { .. } => {}
        }
    }
}

// Those that there were.
impl fmt::Display for Calls {
    fn fmt<W: fmt::Write>(&self, f: &mut fmt::Formatter<W>) -> Result<(), fmt::Error> {
        f.write_str("calls")?;
        write_some(f, "yes", self.yes)?;
        write_some(f, "no", self.no)?;
        write_some(f, "limit", self.limit)?;
        write_some(f, "refused", self.refused)
    }
}

fn write_some<W: fmt::Write>(
    f: &mut fmt::Formatter<W>,
    word: &str,
    count: Count,
) -> Result<(), fmt::Error> {
    if count.number() == 0 {
        Ok(())
    } else {
        write!(f, " {word} {count}")
    }
}

// Calls of all that is asked of a case.
#[derive(Clone, Copy)]
pub struct CaseCalls {
    pub questions: [Calls; 5],
    pub advice: Calls,
    pub away: Calls,
}

impl CaseCalls {
    const NONE: CaseCalls = CaseCalls {
        questions: [Calls::NONE; 5],
        advice: Calls::NONE,
        away: Calls::NONE,
    };
}

// Cases by the answer to a question.
#[derive(Clone, Copy)]
pub struct Answers {
    yes: Count,
    no: Count,
}

impl Answers {
    const NONE: Answers = Answers {
        yes: Count::NONE,
        no: Count::NONE,
    };

    fn count(&mut self, ours: Answer) {
        if ours.is_yes() {
            self.yes.more();
        } else {
            self.no.more();
        }
    }
}

impl fmt::Display for Answers {
    fn fmt<W: fmt::Write>(&self, f: &mut fmt::Formatter<W>) -> Result<(), fmt::Error> {
        write!(f, "yes {} no {}", self.yes, self.no)
    }
}

// Inputs of a kind: cases, their answers question by question, cases that take too many trials, calls, and cases in which the games come apart.
#[derive(Clone, Copy)]
pub struct OfKind {
    pub cases: Count,
    pub answers: [Answers; 5],
    pub longer: [Count; 5],
    pub calls: CaseCalls,
    pub static_not_one_shot: Count,
    pub one_shot_not_decremental: Count,
    pub decremental_not_dynamic: Count,
    pub one_shot_strike: Count,
}

impl OfKind {
    const NONE: OfKind = OfKind {
        cases: Count::NONE,
        answers: [Answers::NONE; 5],
        longer: [Count::NONE; 5],
        calls: CaseCalls::NONE,
        static_not_one_shot: Count::NONE,
        one_shot_not_decremental: Count::NONE,
        decremental_not_dynamic: Count::NONE,
        one_shot_strike: Count::NONE,
    };
}

#[derive(Drop)]
pub struct Tally {
    kind: Kind,
    pub differences: Count,
    pub one_fault: Count,
    pub two_faults: Count,
    pub kinds: [OfKind; 4],
    // Cases answered after more than 2,000 trials.
    pub long: [Answers; 5],
    // By the number of the reason.
    pub refusals: [Count; 16],
    pub judge_calls: Calls,
    pub exported: CaseCalls,
    pub verdicts_calls: Calls,
    pub texts: Count,
    pub refused_texts: Count,
    pub trips_from_file: Count,
    pub trips_from_memory: Count,
    pub desk_games: Count,
    pub away_games: Count,
    // Given up for room: all questions; questions about absence; the decremental one, and with it the text and the exported functions.
    pub given_up: Count,
    pub given_up_absence: Count,
    pub given_up_decremental: Count,
}

impl Tally {
    pub fn new() -> Tally {
        Tally {
            kind: Kind::Damaged,
            differences: Count::NONE,
            one_fault: Count::NONE,
            two_faults: Count::NONE,
            kinds: [OfKind::NONE; 4],
            long: [Answers::NONE; 5],
            refusals: [Count::NONE; 16],
            judge_calls: Calls::NONE,
            exported: CaseCalls::NONE,
            verdicts_calls: Calls::NONE,
            texts: Count::NONE,
            refused_texts: Count::NONE,
            trips_from_file: Count::NONE,
            trips_from_memory: Count::NONE,
            desk_games: Count::NONE,
            away_games: Count::NONE,
            given_up: Count::NONE,
            given_up_absence: Count::NONE,
            given_up_decremental: Count::NONE,
        }
    }

    // Inputs of a kind are tried from here on.
    pub fn begin(&mut self, kind: Kind) {
        self.kind = kind;
    }

    // Counts a good case of the kind in hand.
    pub fn count_case(&mut self) {
        self.kinds[self.kind as usize].cases.more();
    }

    // Counts an answer of the second search to a question about a case.
    pub fn count_answer(&mut self, question: Question, ours: Answer) {
        let of_kind = &mut self.kinds[self.kind as usize];
        if ours.is_long() {
            of_kind.longer[question as usize].more();
            return;
        }
        of_kind.answers[question as usize].count(ours);
        if 2000 < ours.trials() {
            self.long[question as usize].count(ours);
        }
    }

    // Counts a case in which the games come apart, or in which one-shot is lost by a strike in the first round.
    pub fn count_apart(&mut self, five: Five) {
        let of_kind = &mut self.kinds[self.kind as usize];
        if are_apart(five.fixed, five.struck) {
            of_kind.static_not_one_shot.more();
        }
        if are_apart(five.struck, five.growing) {
            of_kind.one_shot_not_decremental.more();
        }
        if are_apart(five.growing, five.changing) {
            of_kind.decremental_not_dynamic.more();
        }
        if is_struck(five.struck) {
            of_kind.one_shot_strike.more();
        }
    }

    // Counts a call, by what it must say.
    pub fn count_call(&mut self, asked: Asked, ours: Answer) {
        if let Answer::Refused(turned) = ours {
            self.refusals[turned.reason as usize].more();
        }
        let calls = &mut self.kinds[self.kind as usize].calls;
        match asked {
            Asked::Question(question) => calls.questions[question as usize].count(ours),
            Asked::Advice => calls.advice.count(ours),
            Asked::Away => calls.away.count(ours),
            _ => {}
        }
    }

    // Counts a call of an exported function, in the same way.
    pub fn count_exported(&mut self, function: Function, ours: Answer) {
        match function {
            Function::Judge => self.judge_calls.count(ours),
            Function::Question(question) => self.exported.questions[question as usize].count(ours),
            Function::Advice => self.exported.advice.count(ours),
            Function::Away => self.exported.away.count(ours),
            Function::Verdicts => self.verdicts_calls.count(ours),
        }
    }
}

// Does it show somebody, compared to the end of the walk?
fn is_struck(a: Answer) -> bool {
    match a {
        Answer::No { shown, .. } => shown != 0 && !a.is_long(),
        _ => false,
    }
}

// Is it yes and then no, both compared to the end of the walk?
fn are_apart(a: Answer, b: Answer) -> bool {
    a.is_yes() && !b.is_yes() && !a.is_long() && !b.is_long()
}
