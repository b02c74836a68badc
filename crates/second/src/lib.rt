// A second search, written from the scope alone. It shares no code with the walks and goes another way: it has the valid positions of a case listed
// once, and works every question out from the longest positions back to the start. What a game says is asked for every set of absentees; how many
// trials the walk would take is summed up from the longer positions, without walking.
//
// Nothing is promised here but safety: questions that the slate has no room for are given up, and the comparison counts them.
#![tactic(auto)]

mod absences;
mod answers;
mod passes;
mod play;
mod strikes;
mod tries;

pub use absences::list_sets;
pub use answers::{Answer, Five, MOST_TRIALS, Question};
pub use passes::{decremental, dynamic, first_plan, has_room, static_answer};
pub use play::{advice, away, judged_absent, judged_position, node_of};
pub use strikes::one_shot;
