// A text that grows at its end.
ghost use Rattle.std.specs.Prelude.{◌≡◌, [], ◌∷◌};
ghost use Rattle.telling.specs.Lines.{decimal};
ghost use Rattle.telling.specs.Held.{held, put_byte};
ghost use Rattle.telling.specs.Held.{put as put_held};

// A text: its bytes, of which the first `len` count and the others are 0. No string and no vector, since telling may not run out of memory; and `held`
// fixes the bytes behind the text too.
#[derive(Clone, Copy)]
pub struct Text {
    pub bytes: [u8; Text::ROOM],
    pub len: usize,
}

impl Text {
    // No text of the program is longer.
    pub const ROOM: usize = 560;

    // Nothing is written yet.
    pub fn empty() -> Text
        ensures { result ≡ held [] }
    {
        Text {
            bytes: [0; Text::ROOM],
            len: 0,
        }
    }

    // One byte more, where there is room.
    pub fn put_byte(mut self, b: u8) -> Text
        ensures { result ≡ put_byte self b }
    {
        self.add_byte(b);
        self
    }

    // More bytes.
    pub fn put(mut self, word: &[u8]) -> Text
        ensures { result ≡ put_held self word.now }
    {
        self.add(word);
        self
    }

    // A space and a number.
    pub fn put_number(mut self, n: u64) -> Text
        ensures { result ≡ put_held self (32 ∷ decimal n) }
    {
        self.add_number(n);
        self
    }
}
