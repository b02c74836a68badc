// The tally, printed.
use crate::counts::{CaseCalls, OfKind, Tally};
use second::Question;
use second_files::Reason;
use std::io;

impl Tally {
    pub fn print_all(&self, rt: &impl Print) -> io::Result<()> {
        println!(rt;
            "Each question of a case is asked at the largest limit, at the exact count of trials and at one less; longer than 20000 trials: at 20000."
        )?;
        let [damaged, small, middle, large] = self.kinds;
        println!(rt; "files with one fault {}", self.one_fault)?;
        println!(rt; "files with two faults {}", self.two_faults)?;
        println!(rt; "of these as cases in memory")?;
        print_calls(rt, &damaged.calls)?;
        println!(rt; "small cases {}", small.cases)?;
        print_kind(rt, &small)?;
        println!(rt; "middle cases {}", middle.cases)?;
        print_kind(rt, &middle)?;
        println!(rt; "large cases {}", large.cases)?;
        print_kind(rt, &large)?;
        self.print_long(rt)?;
        self.print_refusals(rt)?;
        println!(rt; "exported functions")?;
        println!(rt; "  judge: {}", self.judge_calls)?;
        print_calls(rt, &self.exported)?;
        println!(rt; "  verdicts: {}", self.verdicts_calls)?;
        self.print_others(rt)
    }

    fn print_long(&self, rt: &impl Print) -> io::Result<()> {
        println!(rt; "cases answered after more than 2000 trials")?;
        for (question, long) in Question::ALL.iter().zip(&self.long) {
            println!(rt; "  {question}: {long}")?;
        }
        Ok(())
    }

    fn print_refusals(&self, rt: &impl Print) -> io::Result<()> {
        for reason in Reason::ALL {
            let number = reason as usize;
            let count = self.refusals[number];
            println!(rt; "refused {number}: {count}")?;
        }
        Ok(())
    }

    fn print_others(&self, rt: &impl Print) -> io::Result<()> {
        println!(rt; "texts of seven lines {}", self.texts)?;
        println!(rt; "texts of a refusal {}", self.refused_texts)?;
        println!(rt; "round trips from the file {}", self.trips_from_file)?;
        println!(rt; "round trips from memory {}", self.trips_from_memory)?;
        println!(rt; "games played for the desk {}", self.desk_games)?;
        println!(rt; "games played for the away side {}", self.away_games)?;
        println!(rt; "given up for room, all questions {}", self.given_up)?;
        println!(rt;
            "given up for room, questions about absence {}",
            self.given_up_absence
        )?;
        println!(rt;
            "given up for room, decremental, text and exported functions {}",
            self.given_up_decremental
        )?;
        println!(rt; "{} differences", self.differences)
    }
}

// What was asked, question by question.
fn print_calls(rt: &impl Print, calls: &CaseCalls) -> io::Result<()> {
    for (question, calls) in Question::ALL.iter().zip(&calls.questions) {
        println!(rt; "  {question}: {calls}")?;
    }
    print_play(rt, calls)
}

fn print_play(rt: &impl Print, calls: &CaseCalls) -> io::Result<()> {
    println!(rt; "  advice: {}", calls.advice)?;
    println!(rt; "  away: {}", calls.away)
}

// What was asked of the good cases of a kind, with their answers, and those of which the games say different things.
fn print_kind(rt: &impl Print, kind: &OfKind) -> io::Result<()> {
    for question in Question::ALL {
        let answers = kind.answers[question as usize];
        let longer = kind.longer[question as usize];
        let calls = kind.calls.questions[question as usize];
        println!(rt; "  {question}: cases {answers} longer {longer}; {calls}")?;
    }
    print_play(rt, &kind.calls)?;
    println!(rt;
        "  cases with static yes, one-shot no {}",
        kind.static_not_one_shot
    )?;
    println!(rt;
        "  cases with one-shot yes, decremental no {}",
        kind.one_shot_not_decremental
    )?;
    println!(rt;
        "  cases with decremental yes, dynamic no {}",
        kind.decremental_not_dynamic
    )?;
    println!(rt;
        "  cases with one-shot no that show a strike {}",
        kind.one_shot_strike
    )
}
