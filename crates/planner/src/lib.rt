// The public face: every call judges what it is given, and refuses or answers. The seven calls have no `requires`: every value of every argument gets
// an answer, and the contract fixes all of it. The calls `.._good`, `.._ready` and `.._laid` stand inside them, for a case that is judged already, for one that
// a board can be made of, and for a board.
//
// The answers hold all that a caller needs to act on step by step: after advice, append the person to the position and ask again.
#![tactic(auto)]

ghost use Rattle.std.specs.Prelude.{◌≡◌, ◌≤◌};
ghost use Rattle.sets.specs.Stored.{number};
ghost use Rattle.games.specs.Limit.{cut};
ghost use Rattle.cases.specs.Chain.{plan_of};
ghost use Rattle.refusals.specs.Refusals.{Good};
ghost use Rattle.refusals.specs.CaseChecks.{judged_case};
ghost use Rattle.planner.specs.Calls.{plan_call, walk_of, question_call, static_call, decremental_call, one_shot_call, dynamic_call, advice_call, away_call};
ghost use Rattle.laying.specs.Laid.{laid_out};
ghost use Rattle.laying.specs.Ready.{Ready};
ghost use Rattle.planner.specs.OnBoard.{plan_on, walk_on, plan_answer_on, person_told, advice_ready, away_ready};
ghost use Rattle.tries.specs.Outcomes.{plan_outcome, verdict_outcome, advised_outcome};
ghost use Rattle.cases.specs.Positions.{persons};
ghost use Rattle.planner.specs.Answers.{plan_answer, shown_plan, verdict_answer, advice_answer, away_answer};

use advising::advice_walk;
use asking::{filled, judge_absent, judge_number, judge_position};
use boards::{Board, PLACES};
use cases::{Case, Filled, Person, Position};
use judging::{GoodCase, judge_case};
use laying::lay_onto;
use losses::away_turn;
use pieces::Order;
use plans::plan_walk;
use refusals::{Refusal, or_else};
use rounds::dynamic_walk;
use sets::People;
use statics::static_walk;
use strikes::one_shot_walk;
use tries::{Advised, PlanEnd, Planned, Verdict};

// Each call has its own answer, in its own words: a set that beats the desk and a set to keep away are not the same.

// What plan says. A yes shows the first plan: its entries past the steps are 0. Every count is of trials; with "limit" it is the limit.
#[derive(Clone, Copy)]
pub enum PlanAnswer {
    Limit(u32),
    No(u32),
    Yes(Position, u32),
}

// What a verdict says: yes, the desk wins; no, with the set that is shown.
#[derive(Clone, Copy)]
pub enum VerdictAnswer {
    Limit(u32),
    Yes(u32),
    No(People, u32),
}

// What advice says: the lowest present person whose placing leaves a good position, or that there is none.
#[derive(Clone, Copy)]
pub enum AdviceAnswer {
    Limit(u32),
    Nobody(u32),
    Person(Person, u32),
}

// What away says: the people whose placing leaves a good position, if they are at most t; none where they are more.
#[derive(Clone, Copy)]
pub enum AwayAnswer {
    Limit(u32),
    Nobody(u32),
    People(People, u32),
}

// The questions about absence.
#[derive(Clone, Copy)]
pub enum Question {
    Static,
    Decremental,
    OneShot,
    Dynamic,
}

// A case that a board can be made of, as it can of every good one.
#[derive(Clone, Copy)]
pub struct ReadyCase {
    pub case: Case,
    ghost ready: { Ready case },
}

// Is there a plan? The first plan, depth first with people in ascending number. Refused by 4 and 7 to 11.
pub fn plan(case: Case, limit: u32) -> Result<PlanAnswer, Refusal>
    ensures { result ≡ plan_call case limit }
{
    match judge_case(case) {
        Err(refusal) => Err(refusal),
        Ok(()) => plan_good(GoodCase { case }, limit),
    }
}

// The position that an answer to plan shows: the first plan with a yes, else the position at the start.
pub fn plan_shown(answer: Result<PlanAnswer, Refusal>) -> Position
    ensures { result ≡ shown_plan answer }
{
    match answer {
        Ok(PlanAnswer::Yes(plan, _)) => plan,
        _ => Position::start(),
    }
}

// Is there, for every set of at most t people, a plan using none of them? A no shows the first set without a plan. Refused by 4, 7 to 11 and 12.
pub fn static_verdict(case: Case, t: u32, limit: u32) -> Result<VerdictAnswer, Refusal>
    ensures { result ≡ static_call case t limit }
{
    ask(Question::Static, case, t, limit)
}

// Does the desk win where before each step the absent may become more, never above t over the whole job? A no shows the first-round set. Refused by
// 4, 7 to 11 and 12.
pub fn decremental_verdict(case: Case, t: u32, limit: u32) -> Result<VerdictAnswer, Refusal>
    ensures { result ≡ decremental_call case t limit }
{
    ask(Question::Decremental, case, t, limit)
}

// Does the desk win where at most once, before one of the steps, at most t people go and stay away? A no shows the first-round strike, nobody for a
// pass. Refused by 4, 7 to 11 and 12.
pub fn one_shot_verdict(case: Case, t: u32, limit: u32) -> Result<VerdictAnswer, Refusal>
    ensures { result ≡ one_shot_call case t limit }
{
    ask(Question::OneShot, case, t, limit)
}

// Does the desk win where before each step any set of at most t people is away? A no shows the good people at the start, at most t of them. Refused
// by 4, 7 to 11 and 12.
pub fn dynamic_verdict(case: Case, t: u32, limit: u32) -> Result<VerdictAnswer, Refusal>
    ensures { result ≡ dynamic_call case t limit }
{
    ask(Question::Dynamic, case, t, limit)
}

// Whom to put into the next step, with some people absent in this round: the lowest present person whose placing leaves a good position. Refused by
// 4, 7 to 11, 12, 13 and 14.
pub fn advice(
    case: Case,
    position: Position,
    t: u32,
    absent: People,
    limit: u32,
) -> Result<AdviceAnswer, Refusal>
    ensures { result ≡ advice_call case (persons position) t (number absent) limit }
{
    judge_case(case)?;
    advise_good(GoodCase { case }, position, t, absent, limit)
}

// Whom to keep away before the next step: all people whose placing leaves a good position, if they are at most t. Refused by 4, 7 to 11, 12 and 13.
pub fn away(case: Case, position: Position, t: u32, limit: u32) -> Result<AwayAnswer, Refusal>
    ensures { result ≡ away_call case (persons position) t limit }
{
    judge_case(case)?;
    away_good(GoodCase { case }, position, t, limit)
}

// The plan call for a case that is good.
pub fn plan_good(good: GoodCase, limit: u32) -> Result<PlanAnswer, Refusal>
    ensures { result ≡ plan_call good.case limit }
{
    Ok(plan_ready(ReadyCase { case: good.case }, limit))
}

// A case that is ready is laid out as a board and walked.
pub fn plan_ready(ready: ReadyCase, limit: u32) -> PlanAnswer
    ensures { result ≡ plan_answer (cut limit (plan_of ready.case)) }
{
    plan_laid(&laid(ready), ready.case.counts.steps as u8, limit)
}

// The plan call on a board.
pub fn plan_laid(board: &Board, steps: u8, limit: u32) -> PlanAnswer
    ensures { result ≡ plan_answer_on steps (cut limit (plan_on board.now.words board.now.people steps)) }
{
    let walked = plan_walk(board, People::none(), Filled::start(), steps, limit);
    plan_said(walked, steps, limit)
}

// One of the questions about absence.
fn ask(question: Question, case: Case, t: u32, limit: u32) -> Result<VerdictAnswer, Refusal>
    ensures { result ≡ question_call question case t limit }
{
    judge_case(case)?;
    ask_good(question, GoodCase { case }, t, limit)
}

// The same for a case that is good: t is judged, then the case is walked.
pub fn ask_good(
    question: Question,
    good: GoodCase,
    t: u32,
    limit: u32,
) -> Result<VerdictAnswer, Refusal>
    ensures { result ≡ question_call question good.case t limit }
{
    judge_number(t)?;
    Ok(ask_ready(question, ReadyCase { case: good.case }, t, limit))
}

// A case that is ready is laid out as a board and walked.
pub fn ask_ready(question: Question, ready: ReadyCase, t: u32, limit: u32) -> VerdictAnswer
    ensures { result ≡ verdict_answer (cut limit (walk_of question ready.case t)) }
{
    let steps = ready.case.counts.steps as u8;
    ask_laid(question, &laid(ready), t, steps, limit)
}

// A question on a board.
pub fn ask_laid(question: Question, board: &Board, t: u32, steps: u8, limit: u32) -> VerdictAnswer
    ensures { result ≡ verdict_answer (cut limit (walk_on question board.now.words board.now.people t steps)) }
{
    let walked = walk(question, board, t, steps, limit);
    verdict_said(walked, limit)
}

// The walk of a question, from the start. The question is a value and no closure: callers name it, and `question_call` says what each of the four gives.
fn walk(question: Question, board: &Board, t: u32, steps: u8, limit: u32) -> Verdict
    ensures { verdict_outcome limit result ≡ cut limit (walk_on question board.now.words board.now.people t steps) }
{
    let start = Filled::start();
    match question {
        Question::Static => static_walk(board, t, start, steps, limit),
        Question::Decremental => away_turn(board, t, People::none(), start, steps, limit),
        Question::OneShot => one_shot_walk(board, t, start, steps, limit),
        Question::Dynamic => dynamic_walk(board, t, start, steps, limit),
    }
}

// Advice for a case that is good: t is judged, then the rest.
pub fn advise_good(
    good: GoodCase,
    position: Position,
    t: u32,
    absent: People,
    limit: u32,
) -> Result<AdviceAnswer, Refusal>
    ensures { result ≡ advice_call good.case (persons position) t (number absent) limit }
{
    judge_number(t)?;
    advise_ready(ReadyCase { case: good.case }, position, t, absent, limit)
}

// Advice on a case that is ready: the position and the absentees are judged, then the board is walked.
pub fn advise_ready(
    ready: ReadyCase,
    position: Position,
    t: u32,
    absent: People,
    limit: u32,
) -> Result<AdviceAnswer, Refusal>
    ensures { result ≡ advice_ready ready.case (persons position) t (number absent) limit }
{
    let board = laid(ready);
    let people = ready.case.counts.people;
    let steps = ready.case.counts.steps;
    or_else(
        judge_position(&board.words, people, steps, position),
        judge_absent(people, t, absent),
    )?;
    let left = (steps as u8) - position.len;
    let walked = advice_walk(&board, t, absent, filled(position), left, limit);
    Ok(advice_said(walked, limit))
}

// Away for a case that is good: t is judged, then the rest.
pub fn away_good(
    good: GoodCase,
    position: Position,
    t: u32,
    limit: u32,
) -> Result<AwayAnswer, Refusal>
    ensures { result ≡ away_call good.case (persons position) t limit }
{
    judge_number(t)?;
    away_ready(ReadyCase { case: good.case }, position, t, limit)
}

// Away on a case that is ready: the position is judged, then the board is walked.
pub fn away_ready(
    ready: ReadyCase,
    position: Position,
    t: u32,
    limit: u32,
) -> Result<AwayAnswer, Refusal>
    ensures { result ≡ away_ready ready.case (persons position) t limit }
{
    let board = laid(ready);
    let counts = ready.case.counts;
    judge_position(&board.words, counts.people, counts.steps, position)?;
    let left = (counts.steps as u8) - position.len;
    let walked = dynamic_walk(&board, t, filled(position), left, limit);
    Ok(away_said(walked, limit))
}

// The board of a case that is ready.
fn laid(ready: ReadyCase) -> Board
    ensures words { result.words ≡ laid_out ready.case Order.Listed }
    ensures people { result.people ≡ ready.case.counts.people }
{
    let mut board = Board {
        words: [0; PLACES],
        people: ready.case.counts.people as u8,
    };
    lay_onto(&mut board.words, ready.case, Order::Listed);
    board
}

// What the plan walk came to, as the answer to a caller: a plan fills all steps.
fn plan_said(walked: Planned, steps: u8, limit: u32) -> PlanAnswer
    ensures { result ≡ plan_answer_on steps (plan_outcome limit walked) }
{
    match walked.end {
        PlanEnd::Limit => PlanAnswer::Limit(limit),
        PlanEnd::No(trials) => PlanAnswer::No(trials),
        PlanEnd::Yes(trials) => {
            let who = walked.plan.who;
            let plan = Position { who, len: steps };
            PlanAnswer::Yes(plan, trials)
        }
    }
}

// What a verdict's walk came to.
fn verdict_said(walked: Verdict, limit: u32) -> VerdictAnswer
    ensures { result ≡ verdict_answer (verdict_outcome limit walked) }
{
    match walked {
        Verdict::Limit => VerdictAnswer::Limit(limit),
        Verdict::Yes(trials) => VerdictAnswer::Yes(trials),
        Verdict::No(shown, trials) => VerdictAnswer::No(shown, trials),
    }
}

// What the walk of away came to: it is the dynamic walk, told for the away side.
fn away_said(walked: Verdict, limit: u32) -> AwayAnswer
    ensures { result ≡ away_answer (verdict_outcome limit walked) }
{
    match walked {
        Verdict::Limit => AwayAnswer::Limit(limit),
        Verdict::Yes(trials) => AwayAnswer::Nobody(trials),
        Verdict::No(shown, trials) => AwayAnswer::People(shown, trials),
    }
}

// What the walk of advice came to. Steps are done as listed, so the person says it all.
fn advice_said(walked: Advised, limit: u32) -> AdviceAnswer
    ensures { result ≡ advice_answer (person_told (advised_outcome limit walked)) }
{
    match walked {
        Advised::Limit => AdviceAnswer::Limit(limit),
        Advised::Nobody(trials) => AdviceAnswer::Nobody(trials),
        Advised::Move(_, person, trials) => AdviceAnswer::Person(person, trials),
    }
}
