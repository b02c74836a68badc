// The positions of a case, for the second search: which are valid, asked of the file's bytes, and all of them listed once, breadth first, on a lent
// slate. Nothing is promised here but safety: where the slate has no room, the listing says so.
#![tactic(auto)]

mod placed;
mod positions;
mod rules;
mod slate;

pub use placed::{Placed, with_person};
pub use positions::list_positions;
pub use rules::{keeps, may};
pub use slate::{ByNode, Cell, Cells, Listed, MOST_CELLS, NoRoom, Node, Slate, cell_in, put_cell};
