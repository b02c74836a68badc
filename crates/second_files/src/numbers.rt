// Numbers and sets that need no proof where they are used: sums and products stop at a ceiling, and a place past the width holds nothing.

pub fn plus(a: usize, b: usize) -> usize {
    a.saturating_add(b)
}

pub fn minus(a: usize, b: usize) -> usize {
    a.saturating_sub(b)
}

pub fn times(a: usize, b: usize) -> usize {
    a.saturating_mul(b)
}

// The number without its lowest n bits.
pub fn down(x: usize, n: usize) -> usize {
    if n < 64 { x >> n } else { 0 }
}

// The number with n bits 0 put below it.
pub fn up(x: usize, n: usize) -> usize {
    if n < 64 { x << n } else { 0 }
}

// The lowest byte of a number.
pub fn to_8(x: usize) -> u8 {
    (x % 256) as u8
}

// Is v a member of the set?
pub fn has(set: usize, v: usize) -> bool {
    down(set, v) % 2 == 1
}

// The set of v alone.
pub fn set_of(v: usize) -> usize {
    up(1, v)
}

// How many members a set has.
pub fn size(set: usize) -> usize {
    set.count_ones() as usize
}
