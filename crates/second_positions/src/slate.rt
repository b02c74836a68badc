// The slate: what is listed of a case, and the cells in which its questions are worked out.
use crate::placed::Placed;
use second_files::first;
use std::alloc::{AllocError, Global};

// How many nodes, how many sets, and how many cells for a node with a set are made.
pub const MOST_NODES: usize = 2000;

pub const MOST_SETS: usize = 1000;

pub const MOST_CELLS: usize = 200000;

// There is no room for one more.
#[derive(Clone, Copy, PartialEq, Eq)]
pub struct NoRoom;

// What a cell holds: whether the desk wins, and the trials of the walk from there. Trials past any limit that is asked are one number, so that 32 bits
// are enough for them: there are many cells.
#[derive(Clone, Copy)]
pub struct Cell {
    pub won: bool,
    trials: u32,
}

impl Cell {
    // Past any limit that is asked.
    const PAST: usize = 2147483648;

    pub const LOST: Cell = Cell {
        won: false,
        trials: 0,
    };

    pub const WON: Cell = Cell {
        won: true,
        trials: 0,
    };

    pub fn new(won: bool, trials: usize) -> Cell {
        Cell {
            won,
            trials: trials.min(Self::PAST) as u32,
        }
    }

    pub fn trials(self) -> usize {
        self.trials as usize
    }
}

// A node stands for all valid positions of one length that no rule still ahead can tell apart: it has the persons of the first of them that was met,
// and those whom a rule still ahead asks about.
#[derive(Clone, Copy)]
pub struct Node {
    pub placed: Placed,
    pub asked: usize,
}

impl Node {
    pub const START: Node = Node {
        placed: Placed::START,
        asked: 0,
    };
}

// A node's kids, its positions longer by one, by the person in the next step. There are many: two bytes hold a node's number.
type Kids = [Option<u16>; 32];

// What is listed of a case: its nodes, breadth first, so that a node's kids come after it, and the sets of at most t people in ascending number. Kids
// stand apart from their nodes, which are looked through again and again, so that these lie close together; and they are too many for the stack. Counts
// stand beside nodes and sets, since to list one more cannot run out of memory, as a push can.
#[derive(Drop)]
pub struct Listed {
    pub people: usize,
    pub steps: usize,
    may: [usize; 8],
    later: [usize; 9],
    nodes: [Node; MOST_NODES],
    kids: Vec<Kids>,
    count: usize,
    sets: [usize; MOST_SETS],
    set_count: usize,
}

impl Listed {
    pub fn new(alloc: Global) -> Result<Listed, AllocError> {
        Ok(Listed {
            people: 0,
            steps: 0,
            may: [0; 8],
            later: [0; 9],
            nodes: [Node::START; MOST_NODES],
            kids: vec![in alloc; [None; 32]; MOST_NODES]?,
            count: 0,
            sets: [0; MOST_SETS],
            set_count: 0,
        })
    }

    // The start of a case: no node and no set is listed. The people who may do each step, and for each length the steps asked about later.
    pub fn begin(&mut self, people: usize, steps: usize, may: [usize; 8], later: [usize; 9]) {
        self.people = people;
        self.steps = steps;
        self.may = may;
        self.later = later;
        self.count = 0;
        self.set_count = 0;
    }

    // The set of the people who may do a step.
    pub fn may_do(&self, step: usize) -> usize {
        if step < 8 { self.may[step] } else { 0 }
    }

    // The steps of a position of this length that a rule still ahead asks about.
    pub fn later(&self, length: usize) -> usize {
        if length < 9 { self.later[length] } else { 0 }
    }

    pub fn nodes(&self) -> &[Node] {
        first(&self.nodes, self.count)
    }

    pub fn placed(&self, node: usize) -> Placed {
        if node < MOST_NODES {
            self.nodes[node].placed
        } else {
            Placed::START
        }
    }

    pub fn is_full(&self, node: usize) -> bool {
        self.placed(node).length == self.steps
    }

    // One node more, and its number. Sets are added by a function of their own: a generic struct holds no array of a type parameter, and two short functions
    // are plainer than another way round.
    pub fn add_node(&mut self, node: Node) -> Result<usize, NoRoom> {
        if self.count < MOST_NODES {
            self.nodes[self.count] = node;
            self.count += 1;
            Ok(self.count - 1)
        } else {
            Err(NoRoom)
        }
    }

    // The kid with v in the next step.
    pub fn kid(&self, node: usize, v: usize) -> Option<usize> {
        if node < self.kids.len() && v < 32 {
            self.kids[node][v].map(usize::from)
        } else {
            None
        }
    }

    pub fn put_kid(&mut self, node: usize, v: usize, kid: Option<usize>) {
        if node < self.kids.len() && v < 32 {
            self.kids[node][v] = kid.and_then(|kid| u16::try_from(kid).ok());
        }
    }

    pub fn sets(&self) -> &[usize] {
        first(&self.sets, self.set_count)
    }

    // Set a of them.
    pub fn set(&self, a: usize) -> usize {
        if a < MOST_SETS { self.sets[a] } else { 0 }
    }

    // No set is listed any more.
    pub fn clear_sets(&mut self) {
        self.set_count = 0;
    }

    // One set more.
    pub fn add_set(&mut self, set: usize) -> Result<(), NoRoom> {
        if self.set_count < MOST_SETS {
            self.sets[self.set_count] = set;
            self.set_count += 1;
            Ok(())
        } else {
            Err(NoRoom)
        }
    }
}

// A cell for each node.
pub type ByNode = [Cell; MOST_NODES];

// The cells of the questions: of the plan, dynamic and one-shot questions and of the strikes before it by node; of the decremental question for the
// desk by set, for one node at a time, and for the away side by node and set. These are too many for the stack.
#[derive(Drop)]
pub struct Cells {
    pub plan: ByNode,
    pub dynamic: ByNode,
    pub struck: ByNode,
    pub one_shot: ByNode,
    pub desk: [Cell; MOST_SETS],
    pub away: Vec<Cell>,
}

impl Cells {
    pub fn new(alloc: Global) -> Result<Cells, AllocError> {
        Ok(Cells {
            plan: [Cell::LOST; MOST_NODES],
            dynamic: [Cell::LOST; MOST_NODES],
            struck: [Cell::LOST; MOST_NODES],
            one_shot: [Cell::LOST; MOST_NODES],
            desk: [Cell::LOST; MOST_SETS],
            away: vec![in alloc; Cell::LOST; MOST_CELLS]?,
        })
    }
}

pub fn cell_in(cells: &[Cell], i: usize) -> Cell {
    if i < cells.len() {
        cells[i]
    } else {
        Cell::LOST
    }
}

pub fn put_cell(cells: &mut [Cell], i: usize, cell: Cell) {
    if i < cells.len() {
        cells[i] = cell;
    }
}

#[derive(Drop)]
pub struct Slate {
    pub listed: Listed,
    pub cells: Cells,
}

impl Slate {
    pub fn new(alloc: Global) -> Result<Slate, AllocError> {
        Ok(Slate {
            listed: Listed::new(alloc)?,
            cells: Cells::new(alloc)?,
        })
    }
}
