// What is put at the end of a text where it stands, so that the loops and the recursion that make one copy no text. A byte for which there is no room
// is not put.
ghost use Rattle.std.specs.Prelude.{◌≡◌, ◌∷◌};
ghost use Rattle.telling.specs.Lines.{digits, decimal};
ghost use Rattle.telling.specs.Held.{put_byte, put};

use crate::Text;

impl Text {
    // One byte.
    pub(crate) fn add_byte(&mut self, b: u8)
        ensures { self.new ≡ put_byte self.old b }
    {
        if self.len < Text::ROOM {
            self.bytes[self.len] = b;
            self.len += 1;
        }
    }

    // The bytes of a word.
    pub(crate) fn add(&mut self, word: &[u8])
        ensures { self.new ≡ put self.old word.now }
    {
        for b in word {
            self.add_byte(*b);
        }
    }

    // A space and a number.
    pub(crate) fn add_number(&mut self, n: u64)
        ensures { self.new ≡ put self.old (32 ∷ decimal n) }
    {
        self.add_byte(b' ');
        self.add_digits(n, 20);
    }

    // A number of at most `most` digits.
    #[tactic(auto, using(crate::proofs::Growing::digit_rules))]
    fn add_digits(&mut self, n: u64, most: u8)
        ensures { self.new ≡ put self.old (digits most n) }
    {
        if most == 0 {
            return;
        }
        if n < 10 {
            self.add_byte(48 + n as u8);
            return;
        }
        self.add_digits(n / 10, most - 1);
        self.add_byte(48 + (n % 10) as u8);
    }
}
