// Sets. This crate alone knows how a set of people is stored: every other crate asks here, and meets a set as the number that the scope
// writes, with bit v for person v. It knows nothing of cases, games or files.
//
// No function has a `requires`: a person at or past the width is in no set, and no set has room for one.
#![tactic(auto)]

mod small;

ghost use Rattle.std.specs.Prelude.{◌≡◌, ◌&&◌, min, ◌+◌, ◌^◌, leb, ltb, eqb};
ghost use Rattle.std.proofs.Math.Option.{some};
ghost use Rattle.sets.specs.Lists.{pick, only_if};
ghost use Rattle.sets.specs.Sets.{has, set_of, size, within, meets, past, lowest, with, without, common, joined, difference, everybody, size_before, after, from_on, next_set};
ghost use Rattle.sets.specs.Stored.{width, number, stored, no_people, set_at, next_number, lowest_number, low_word, high_word, from_words, wide_number};

pub use small::{holds, lowest_in, past, share, shared, size, with, within, without};

// A set of people.
#[derive(Clone, Copy, PartialEq, Eq)]
pub struct People {
    bits: u32,
}

impl People {
    // How many people a set has room for.
    pub const WIDTH: u8 = 32;

    // Nobody.
    pub fn none() -> People
        ensures { result ≡ no_people }
    {
        People { bits: 0 }
    }

    // The first n people, or as many of them as there is room for.
    pub fn everybody(n: u8) -> People
        ensures { number result ≡ everybody width n }
    {
        if n < People::WIDTH {
            People { bits: (1 << n) - 1 }
        } else {
            People { bits: u32::MAX }
        }
    }

    // The set that a 32-bit number writes.
    pub fn from_word(word: u32) -> People
        ensures { result ≡ stored word }
    {
        People { bits: word }
    }

    // The 32-bit number that writes the set.
    pub fn word(self) -> u32
        ensures { result ≡ number self }
    {
        self.bits
    }

    // The set that two words of 64 bits write, the low one first; or that it has a member past the width.
    pub fn from_words(low: u64, high: u64) -> Option<People>
        ensures { wide_number result ≡ only_if (ltb (from_words low high) (2 ^ width)) (from_words low high) }
    {
        if high != 0 {
            return None;
        }
        if 4294967296 <= low {
            return None;
        }
        Some(People { bits: low as u32 })
    }

    // The low word of the two that write the set.
    pub fn low(self) -> u64
        ensures { result ≡ low_word (number self) }
    {
        self.bits as u64
    }

    // The high word: no set has a member past the low one's 64.
    pub fn high(self) -> u64
        ensures { result ≡ high_word (number self) }
    {
        0
    }

    // The set at place i of words that store one set each; nobody past its end.
    pub fn at(words: &[u32], i: usize) -> People
        ensures { number result ≡ set_at words.now i }
    {
        if i < words.len() {
            People { bits: words[i] }
        } else {
            People { bits: 0 }
        }
    }

    // Is nobody a member?
    pub fn is_none(self) -> bool
        ensures { result ≡ eqb (number self) 0 }
    {
        self.bits == 0
    }

    // Is person v a member?
    pub fn has(self, v: u8) -> bool
        ensures { result ≡ has (number self) v }
    {
        if v < People::WIDTH {
            (self.bits >> v) % 2 == 1
        } else {
            false
        }
    }

    // The set with person v, where there is room for v.
    pub fn with(self, v: u8) -> People
        ensures { number result ≡ with width (number self) v }
    {
        self.joined(People::alone(v))
    }

    // The set without person v.
    pub fn without(self, v: u8) -> People
        ensures { number result ≡ without width (number self) v }
    {
        self.difference(People::alone(v))
    }

    // Person v and nobody else, or nobody where there is no room for v.
    fn alone(v: u8) -> People
        ensures { number result ≡ set_of (λ w. eqb w v) width }
    {
        if v < People::WIDTH {
            People { bits: 1 << v }
        } else {
            People { bits: 0 }
        }
    }

    // Those in both sets.
    pub fn common(self, other: People) -> People
        ensures { number result ≡ common width (number self) (number other) }
    {
        People {
            bits: self.bits & other.bits,
        }
    }

    // Those in either set.
    pub fn joined(self, other: People) -> People
        ensures { number result ≡ joined width (number self) (number other) }
    {
        People {
            bits: self.bits | other.bits,
        }
    }

    // Those who are not in the other set.
    pub fn difference(self, other: People) -> People
        ensures { number result ≡ difference width (number self) (number other) }
    {
        People {
            bits: self.bits & !other.bits,
        }
    }

    // How many members there are.
    pub fn size(self) -> u32
        ensures { result ≡ size width (number self) }
    {
        u32::count_ones(self.bits)
    }

    // Is each member in the other set?
    pub fn within(self, other: People) -> bool
        ensures { result ≡ within width (number self) (number other) }
    {
        self.bits & other.bits == self.bits
    }

    // Is some member in the other set?
    pub fn meets(self, other: People) -> bool
        ensures { result ≡ meets width (number self) (number other) }
    {
        self.bits & other.bits != 0
    }

    // Is some member not below n?
    pub fn past(self, n: u16) -> bool
        ensures { result ≡ past width (number self) n }
    {
        let bits = self.bits;
        if n < (People::WIDTH as u16) {
            1 << n <= bits
        } else {
            false
        }
    }

    // The member with the lowest number.
    pub fn lowest(self) -> Option<u8>
        ensures { lowest_number result ≡ lowest width (number self) }
    {
        let bits = self.bits;
        if bits == 0 {
            None
        } else {
            Some(u32::trailing_zeros(bits) as u8)
        }
    }

    // How many members come before person v.
    pub fn before(self, v: u8) -> u32
        ensures { result ≡ size_before width (number self) v }
    {
        let earlier = self.common(People::everybody(v));
        if earlier.is_none() {
            return 0;
        }
        earlier.size()
    }

    // The members after person v.
    pub fn after(self, v: u8) -> People
        ensures { number result ≡ after width (number self) v }
    {
        self.difference(People::everybody(v).with(v))
    }

    // The members from person v on.
    pub fn from_on(self, v: u8) -> People
        ensures { number result ≡ from_on width (number self) v }
    {
        self.difference(People::everybody(v))
    }

    // The set after this one among the sets of at most `most` of the first n people that contain `held`, in ascending number. Nothing where
    // this one is the last of them, or is none of them. Members of `held` past the first n do not count.
    pub fn next(self, n: u8, most: u32, held: People) -> Option<People>
        ensures { next_number result ≡ next_set (min n width) most (number held) (number self) }
    {
        let all = People::everybody(n);
        let kept = held.common(all);
        if !self.listed(most, kept, all) {
            return None;
        }
        match self.place(most, kept) {
            Some(v) => self.counted_up(v, kept, all),
            None => None,
        }
    }

    // Is this a set of at most `most` of the people in `all`, with everybody in `held`?
    fn listed(self, most: u32, held: People, all: People) -> bool
        ensures { result ≡ (within width (number self) (number all) && (within width (number held) (number self) && leb (size width (number self)) most)) }
    {
        if !self.within(all) {
            return false;
        }
        if !held.within(self) {
            return false;
        }
        self.size() <= most
    }

    // The person to count up from for the next set: person 0 where one more may join, else the lowest who is not in `held`. Nobody where nobody
    // may join and nobody may go.
    fn place(self, most: u32, held: People) -> Option<u8>
        ensures { lowest_number result ≡ pick (ltb (size width (number self)) most) (some 0) (lowest width (difference width (number self) (number held))) }
    {
        if self.size() < most {
            Some(0)
        } else {
            self.difference(held).lowest()
        }
    }

    // The set whose number is 2^v more, with everybody in `held` besides. Nothing where that number is past the one of `last`.
    fn counted_up(self, v: u8, held: People, last: People) -> Option<People>
        ensures { next_number result ≡ only_if (leb (number self + 2 ^ v) (number last)) (joined width (number self + 2 ^ v) (number held)) }
    {
        let from = self.bits;
        let to = last.bits;
        if People::WIDTH <= v {
            return None;
        }
        if to < from {
            return None;
        }
        let step = 1 << v;
        if to - from < step {
            return None;
        }
        Some(People {
            bits: (from + step) | held.bits,
        })
    }
}
