// A file's numbers, by their places. Offsets follow from the counts.
use crate::numbers::{down, plus, times, to_8, up};

// Room for the longest file, and for some bytes too many.
pub const ROOM: usize = 1040;

// A file: the first `length` bytes. An array with its length, and no vector: to draw and to damage a file may not run out of memory.
#[derive(Clone, Copy)]
pub struct File {
    pub bytes: [u8; ROOM],
    pub length: usize,
}

// The first n items, or all where there are fewer.
pub fn first<T>(items: &[T], n: usize) -> &[T] {
    if n <= items.len() {
        &items[0..n]
    } else {
        items
    }
}

// The items behind the first n, if there are any.
pub fn rest<T>(items: &[T], n: usize) -> &[T] {
    &items[n.min(items.len())..]
}

pub fn person_at(u: usize) -> usize {
    plus(24, times(2, u))
}

impl File {
    // No bytes yet, and zero in all of the room.
    pub fn empty() -> File {
        File {
            bytes: [0; ROOM],
            length: 0,
        }
    }

    // The bytes of the file, as they are lent to the planner.
    pub fn lent(&self) -> &[u8] {
        first(&self.bytes, self.length)
    }

    pub fn byte(&self, at: usize) -> usize {
        if at < ROOM {
            usize::from(self.bytes[at])
        } else {
            0
        }
    }

    pub fn word(&self, at: usize) -> usize {
        self.byte(at) | up(self.byte(plus(at, 1)), 8)
    }

    pub fn long(&self, at: usize) -> usize {
        self.word(at) | up(self.word(plus(at, 2)), 16)
    }

    pub fn put_byte(&mut self, at: usize, x: usize) {
        if at < ROOM {
            self.bytes[at] = to_8(x);
        }
    }

    pub fn put_word(&mut self, at: usize, x: usize) {
        self.put_byte(at, x);
        self.put_byte(plus(at, 1), down(x, 8));
    }

    pub fn put_long(&mut self, at: usize, x: usize) {
        self.put_word(at, x);
        self.put_word(plus(at, 2), down(x, 16));
    }

    pub fn people(&self) -> usize {
        self.word(2)
    }

    pub fn steps(&self) -> usize {
        self.word(4)
    }

    pub fn roles(&self) -> usize {
        self.word(6)
    }

    pub fn tables(&self) -> usize {
        self.word(8)
    }

    pub fn rules(&self) -> usize {
        self.word(10)
    }

    // How many rows all tables have together.
    pub fn rows(&self) -> usize {
        times(self.tables(), self.people())
    }

    pub fn step_at(&self, s: usize) -> usize {
        plus(person_at(self.people()), times(4, s))
    }

    // Row i, where the rows of all tables stand behind each other.
    pub fn row_at(&self, i: usize) -> usize {
        plus(self.step_at(self.steps()), times(4, i))
    }

    pub fn rule_at(&self, r: usize) -> usize {
        plus(self.row_at(self.rows()), times(4, r))
    }

    // How many bytes the counts ask for.
    pub fn total(&self) -> usize {
        self.rule_at(self.rules())
    }
}
