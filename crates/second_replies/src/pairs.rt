// Positions as the exported functions take them: a pair of bytes for each entry, the step and the person.
use second_draws::Chance;
use second_files::{File, Reason, Turned, first, minus, plus, times, to_8};
use second_positions::{Placed, keeps, may, with_person};

// Room for more entries than any case has steps.
const BYTES: usize = 24;

// A position: the first `length` bytes. An array with its length, and no vector, as for a file.
#[derive(Clone, Copy)]
pub struct Pairs {
    bytes: [u8; BYTES],
    length: usize,
}

impl Pairs {
    // The pairs of a position.
    fn new(placed: Placed) -> Pairs {
        let mut pairs = Pairs {
            bytes: [0; BYTES],
            length: times(2, placed.length),
        };
        for i in 0..12 {
            pairs.put(2 * i, i);
            pairs.put(2 * i + 1, placed.person(i));
        }
        pairs
    }

    fn put(&mut self, at: usize, x: usize) {
        if at < BYTES {
            self.bytes[at] = to_8(x);
        }
    }

    fn byte(&self, at: usize) -> usize {
        if at < BYTES {
            usize::from(self.bytes[at])
        } else {
            0
        }
    }

    // The bytes, as they are lent to an exported function.
    pub fn lent(&self) -> &[u8] {
        first(&self.bytes, self.length)
    }

    // How many entries there are: a byte without its pair is one too.
    pub fn entries(&self) -> usize {
        plus(self.length, 1) / 2
    }

    fn person(&self, entry: usize) -> usize {
        self.byte(plus(times(2, entry), 1))
    }

    // The position of the first entries.
    pub fn placed(&self, entries: usize) -> Placed {
        let mut who = 0;
        for i in 0..entries {
            who = with_person(who, i, self.person(i));
        }
        Placed {
            who: who,
            length: entries,
        }
    }

    // The position judged by 13.
    pub fn judged(&self, file: &File) -> Result<(), Turned> {
        if file.steps() <= self.entries() {
            return Err(Reason::Position.at(file.steps()));
        }
        for i in 0..self.entries() {
            if !self.is_good(file, i) {
                return Err(Reason::Position.at(i));
            }
        }
        Ok(())
    }

    // Is an entry a whole pair, for its own step, with a person who keeps the position valid?
    fn is_good(&self, file: &File, i: usize) -> bool {
        times(2, plus(i, 1)) <= self.length
            && self.byte(times(2, i)) == i
            && may(file, self.person(i), i)
            && keeps(file, self.placed(plus(i, 1)))
    }
}

// The pairs of a position; now and then a byte short or a byte over, or with another step, or with a person who is not there.
pub fn draw_pairs(chance: &mut Chance, placed: Placed) -> Pairs {
    let mut pairs = Pairs::new(placed);
    let entry = chance.from_to(0, placed.length);
    match chance.below(10) {
        0 => pairs.length = minus(pairs.length, 1),
        1 => pairs.length = plus(pairs.length, 1),
        2 => pairs.put(times(2, entry), chance.below(9)),
        3 => pairs.put(plus(times(2, entry), 1), chance.below(256)),
        _ => {}
    }
    pairs
}
