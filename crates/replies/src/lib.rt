// What crosses to other languages as plain numbers: a lent position's bytes become a position, and an answer of the planner becomes 18 numbers. It
// knows the planner's answers, and nothing of files or of what is asked.
#![tactic(auto)]

mod pairs;
mod replies;

pub use pairs::position_of;
pub use replies::{
    LIMIT, NAMED, NO, NOBODY, NUMBERS, YES, advice_reply, away_reply, plan_reply, refused, said,
    verdict_reply,
};
