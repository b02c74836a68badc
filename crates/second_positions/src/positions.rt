// The valid positions of a case, listed breadth first. Positions of one length that no rule still ahead can tell apart go on alike, with the same people
// and the same trials, and are listed once.
use crate::placed::only;
use crate::rules::{asked_later, keeps, may};
use crate::slate::{Listed, MOST_NODES, NoRoom, Node};
use second_files::{File, has, plus, rest, set_of};

// Lists them, if they fit.
pub fn list_positions(listed: &mut Listed, file: &File) -> Result<(), NoRoom> {
    listed.begin(
        file.people(),
        file.steps(),
        list_may(file),
        list_later(file),
    );
    listed.add_node(Node::START)?;
    for node in 0..MOST_NODES {
        if node == listed.nodes().len() {
            return Ok(());
        }
        add_kids(listed, file, node)?;
    }
    Ok(())
}

// For each step the people who may do it.
fn list_may(file: &File) -> [usize; 8] {
    let mut may_do = [0; 8];
    for (step, set) in may_do.iter_mut().enumerate() {
        for v in 0..32 {
            if may(file, v, step) {
                *set |= set_of(v);
            }
        }
    }
    may_do
}

// For each length the steps that are asked about later.
fn list_later(file: &File) -> [usize; 9] {
    let mut later = [0; 9];
    for (length, steps) in later.iter_mut().enumerate() {
        *steps = asked_later(file, length);
    }
    later
}

// The valid positions that are longer by one person.
fn add_kids(listed: &mut Listed, file: &File, node: usize) -> Result<(), NoRoom> {
    for v in 0..listed.people {
        let kid = kid_with(listed, file, node, v)?;
        listed.put_kid(node, v, kid);
    }
    Ok(())
}

// The node with v in the next step, listed now if it is not yet, where there is a next step and the position is valid.
fn kid_with(
    listed: &mut Listed,
    file: &File,
    node: usize,
    v: usize,
) -> Result<Option<usize>, NoRoom> {
    let placed = listed.placed(node);
    if placed.length == listed.steps || !has(listed.may_do(placed.length), v) {
        return Ok(None);
    }
    let longer = placed.with(v);
    if !keeps(file, longer) {
        return Ok(None);
    }
    let longer = Node {
        placed: longer,
        asked: only(longer.who, listed.later(longer.length)),
    };
    match same_node(listed, node, longer) {
        Some(kid) => Ok(Some(kid)),
        None => Ok(Some(listed.add_node(longer)?)),
    }
}

// The node past another one that no rule still ahead can tell apart from this one.
fn same_node(listed: &Listed, past: usize, new: Node) -> Option<usize> {
    rest(listed.nodes(), past)
        .iter()
        .position(|node| node.asked == new.asked && node.placed.length == new.placed.length)
        .map(|i| plus(past, i))
}
