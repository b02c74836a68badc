// The sets of at most t people, listed.
use second_files::{set_of, size};
use second_positions::{Listed, NoRoom};

// The sets of at most t people, in ascending number, if they fit.
//
// They are listed person by person: the empty set first, and for each person v all sets listed so far, in their order, that have fewer than t members,
// with v added. A set with v is larger as a number than every set of lower people, which all stand before it, and of two sets with v the larger is the
// one made from the larger set. So the numbers ascend; and every set is listed, when its highest person's turn comes.
pub fn list_sets(listed: &mut Listed, t: usize) -> Result<(), NoRoom> {
    listed.clear_sets();
    listed.add_set(0)?;
    for v in 0..listed.people {
        for a in 0..listed.sets().len() {
            let smaller = listed.set(a);
            if size(smaller) < t {
                listed.add_set(smaller | set_of(v))?;
            }
        }
    }
    Ok(())
}
