// Tries the public calls of `planner`. Standard input is a list of lines. Each is written again, and behind a question its whole answer.
//
// The case is made in memory, line by line, and each question is about the case made so far. Entries that no line names stay as they are.
//
//     empty                          the case with nothing in it
//     counts P S R T N               counts of people, steps, roles, tables and rules
//     people I A B ..                people from entry I on, a number each: the roles held
//     steps I A B C ..               steps from entry I on, three numbers each: roles, steps before, spare byte
//     rows I A B ..                  rows of tables from entry I on, a number each
//     rules I A B C D ..             rules from entry I on, four numbers each: form, relation, step, group
//
//     plan LIMIT
//     static LIMIT T                 and decremental, one-shot and dynamic alike
//     advice LIMIT T ABSENT N A B .. at a position of length N, with A, B .. in its entries
//     away LIMIT T N A B ..          alike
//     follow LIMIT T A B ..          advice asked for and followed from the start on, with the sets A, B .. absent in turn
//     dodge LIMIT T N                away played against N desks, the first N lists of persons
//
// Every other line is a remark.
#![tactic(auto)]

mod playing;
mod saying;

use cases::Case;
use planner::{decremental_verdict, dynamic_verdict, one_shot_verdict, plan, static_verdict};
use planner_lines::{Line, Question, Terms};
use playing::Game;
use reading::read_full;
use saying::Answer;
use std::io;

fn main(rt: HostRuntime) -> io::Result<()> {
    let mut input = [0u8; 65536];
    let n = read_full(&mut rt.stdin(), &mut input)?;
    tries(&rt, &input[..n])
}

fn tries(rt: &impl Print, input: &[u8]) -> io::Result<()> {
    let mut case = Case::empty();
    for line in input.split_inclusive(|b| *b == b'\n') {
        case = tried(rt, line.strip_suffix(b"\n").unwrap_or(line), case)?;
    }
    Ok(())
}

// One line: what it makes of the case.
fn tried(rt: &impl Print, text: &[u8], case: Case) -> io::Result<Case> {
    rt.write_all(text)?;
    let next = match Line::from(text) {
        Line::Change(change) => change.made(case),
        Line::Question(question) => {
            answer(rt, question, case)?;
            case
        }
        Line::Remark => case,
    };
    println!(rt; "")?;
    Ok(next)
}

// Writes the answer to a question about the case.
fn answer(rt: &impl Print, question: Question<'_>, case: Case) -> io::Result<()> {
    match question {
        Question::Plan(limit) => rt.print(Answer::Plan(plan(case, limit))),
        Question::Static(Terms { limit, t }) => {
            rt.print(Answer::Verdict(static_verdict(case, t, limit)))
        }
        Question::Decremental(Terms { limit, t }) => {
            rt.print(Answer::Verdict(decremental_verdict(case, t, limit)))
        }
        Question::OneShot(Terms { limit, t }) => {
            rt.print(Answer::Verdict(one_shot_verdict(case, t, limit)))
        }
        Question::Dynamic(Terms { limit, t }) => {
            rt.print(Answer::Verdict(dynamic_verdict(case, t, limit)))
        }
        Question::Advice(terms, absent, position) => {
            rt.print(Answer::Advice(Game { case, terms }.advice(position, absent)))
        }
        Question::Away(terms, position) => {
            rt.print(Answer::Away(Game { case, terms }.away(position)))
        }
        Question::Follow(terms, absent) => Game { case, terms }.follow(rt, absent),
        Question::Dodge(terms, desks) => rt.print(Game { case, terms }.dodge(desks)),
    }
}
