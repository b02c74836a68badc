// Pseudo-random numbers (xorshift of 64 bits).
use second_files::{down, minus, plus, set_of, up};

// What is drawn next follows from the seed.
#[derive(Drop)]
pub struct Chance {
    seed: usize,
}

impl Chance {
    pub fn new(seed: usize) -> Chance {
        Chance { seed: seed }
    }

    // A number below n, or 0 where there is none, so that a drawing goes on.
    pub fn below(&mut self, n: usize) -> usize {
        let a = self.seed ^ up(self.seed, 13);
        let b = a ^ down(a, 7);
        self.seed = b ^ up(b, 17);
        if n == 0 { 0 } else { down(self.seed, 11) % n }
    }

    // A number below n, if there is one; else nothing is drawn.
    pub fn one_of(&mut self, n: usize) -> Option<usize> {
        if n == 0 { None } else { Some(self.below(n)) }
    }

    // A number from `least` to `most`.
    pub fn from_to(&mut self, least: usize, most: usize) -> usize {
        plus(least, self.below(plus(1, minus(most, least))))
    }

    // A set of numbers below n, each with a chance of `odds` in 8.
    pub fn some_of(&mut self, n: usize, odds: usize) -> usize {
        let mut set = 0;
        for v in 0..n {
            if self.below(8) < odds {
                set |= set_of(v);
            }
        }
        set
    }
}
