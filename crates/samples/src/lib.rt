// Files made in memory, for programs that try things on them: the campfire and others, changed byte by byte.
#![tactic(auto)]

// A file of at most 1,100 bytes, of which the first `len` count. An array with its length, and no vector: making a file takes no memory, so that it
// cannot fail, and a file is made byte by byte past its end too.
#[derive(Clone, Copy)]
pub struct Made {
    data: [u8; 1100],
    len: usize,
}

// The numbers of a header after the edition: five counts, four offsets, and the total.
#[derive(Clone, Copy)]
struct Head {
    pub people: u16,
    pub steps: u16,
    pub roles: u16,
    pub tables: u16,
    pub rules: u16,
    pub people_at: u16,
    pub steps_at: u16,
    pub tables_at: u16,
    pub rules_at: u16,
    pub total: u16,
}

// The campfire's 42 bytes.
pub fn campfire() -> Made {
    empty(Head {
        people: 3,
        steps: 2,
        roles: 2,
        tables: 0,
        rules: 1,
        people_at: 24,
        steps_at: 30,
        tables_at: 38,
        rules_at: 38,
        total: 42,
    })
    .word(24, 1)
    .word(26, 3)
    .word(28, 2)
    .word(30, 1)
    .word(34, 2)
    .byte(36, 1)
    .byte(38, 1)
    .byte(39, 1)
    .byte(40, 1)
    .byte(41, 1)
}

// The campfire with one table, in which (0, 1) stands.
pub fn related() -> Made {
    empty(Head {
        people: 3,
        steps: 2,
        roles: 2,
        tables: 1,
        rules: 1,
        people_at: 24,
        steps_at: 30,
        tables_at: 38,
        rules_at: 50,
        total: 54,
    })
    .word(24, 1)
    .word(26, 3)
    .word(28, 2)
    .word(30, 1)
    .word(34, 2)
    .byte(36, 1)
    .byte(38, 2)
    .byte(50, 1)
    .byte(51, 1)
    .byte(52, 1)
    .byte(53, 1)
}

// Every count at its limit, with the rules all alike: form 1, "same person", s = 0, X = {0}.
pub fn largest() -> Made {
    empty(Head {
        people: 32,
        steps: 8,
        roles: 16,
        tables: 6,
        rules: 32,
        people_at: 24,
        steps_at: 88,
        tables_at: 120,
        rules_at: 888,
        total: 1016,
    })
    .each(888, 32, 1)
    .each(891, 32, 1)
}

// No entries of any kind.
pub fn nobody() -> Made {
    empty(Head {
        people: 0,
        steps: 0,
        roles: 0,
        tables: 0,
        rules: 0,
        people_at: 24,
        steps_at: 24,
        tables_at: 24,
        rules_at: 24,
        total: 24,
    })
}

// A header, with zeros behind it up to its total.
fn empty(h: Head) -> Made {
    let mut file = Made {
        data: [0; 1100],
        len: h.total as usize,
    };
    let words = [
        1,
        h.people,
        h.steps,
        h.roles,
        h.tables,
        h.rules,
        h.people_at,
        h.steps_at,
        h.tables_at,
        h.rules_at,
        h.total,
    ];
    for (i, word) in words.iter().enumerate() {
        file = file.word(2 * i, *word);
    }
    file
}

impl Made {
    // With another byte at a place.
    pub fn byte(self, at: usize, v: u8) -> Made {
        let mut next = self;
        if let Some(byte) = next.data.get_mut(at) {
            *byte = v;
        }
        next
    }

    // With another 16-bit number at a place.
    pub fn word(self, at: usize, v: u16) -> Made {
        let [low, high] = v.to_le_bytes();
        self.byte(at, low).byte(at.saturating_add(1), high)
    }

    // With the same byte at `many` places, from `at` on, four bytes apart.
    pub fn each(self, at: usize, many: u8, v: u8) -> Made {
        (0..many).fold(
            self,
            |file, i| file.byte(at.saturating_add(4 * (i as usize)), v),
        )
    }

    // With another length.
    pub fn long(self, len: usize) -> Made {
        Made { len, ..self }
    }

    pub fn bytes(&self) -> &[u8] {
        first(&self.data, self.len)
    }

    // Its bytes are the first `len` of these.
    pub fn data(self) -> [u8; 1100] {
        self.data
    }

    pub fn len(self) -> usize {
        self.len
    }
}

// The first `len` bytes, or all where there are fewer.
pub fn first(data: &[u8], len: usize) -> &[u8] {
    data.get(..len).unwrap_or(data)
}
