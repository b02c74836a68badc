// A file in the making: what a line of input has said so far.
use samples::{Made, campfire, largest, nobody, related};

#[derive(Clone, Copy)]
pub struct Making {
    file: Made,
    // the number that is being read
    number: u16,
    // the place that was read before it
    at: u16,
    change: Change,
}

// What the number that is read will be.
#[derive(Clone, Copy)]
enum Change {
    // the length of the file
    Length,
    // the byte at so many places
    Places(u8),
}

impl Making {
    // The file to start from.
    pub fn from(letter: u8) -> Making {
        Making::of(match letter {
            b'r' | b'R' => related(),
            b'l' | b'L' => largest(),
            b'n' | b'N' => nobody(),
            _ => campfire(),
        })
    }

    // Nothing is read yet.
    fn of(file: Made) -> Making {
        Making {
            file,
            number: 0,
            at: 0,
            change: Change::Places(0),
        }
    }

    pub fn file(self) -> Made {
        self.file
    }

    // One byte more of the line.
    pub fn read(self, b: u8) -> Making {
        match b {
            b'0'..=b'9' => self.digit(b - b'0'),
            b'*' => self.place(Change::Places(0)),
            b'=' => self.value(),
            b'#' => self.place(Change::Length),
            b' ' => Making::of(self.changed()),
            _ => self,
        }
    }

    fn digit(self, d: u8) -> Making {
        if 6000 < self.number {
            return self;
        }
        Making {
            number: self.number * 10 + (d as u16),
            ..self
        }
    }

    // The number read is a place, and another number follows.
    fn place(self, change: Change) -> Making {
        Making {
            at: self.number,
            number: 0,
            change,
            ..self
        }
    }

    // What was read before the value: how many places, where the place is known, else the place.
    fn value(self) -> Making {
        if self.at == 0 {
            return self.place(Change::Places(1));
        }
        let change = match self.change {
            Change::Length => Change::Length,
            Change::Places(_) => Change::Places(low(self.number)),
        };
        Making {
            number: 0,
            change,
            ..self
        }
    }

    // A change is read whole.
    fn changed(self) -> Made {
        match self.change {
            Change::Length => self.file.long(self.number as usize),
            Change::Places(many) => self.file.each(self.at as usize, many, low(self.number)),
        }
    }
}

fn low(n: u16) -> u8 {
    let [low, _] = n.to_le_bytes();
    low
}
