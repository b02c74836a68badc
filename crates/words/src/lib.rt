// Bytes and little-endian numbers of a slice, got and put. It knows nothing of cases or files. Past the end of a slice every byte is 0.
#![tactic(auto)]

ghost use Rattle.std.specs.Prelude.{◌≡◌, ◌+◌, ◌<◌, length, drop};
ghost use Rattle.std.proofs.lemmas.List.Edits.{sets};
ghost use Rattle.words.specs.Word.{byte, word, long, le2, le4};

// Byte i.
pub fn byte_at(s: &[u8], i: usize) -> u8
    ensures { result ≡ byte s.now i }
{
    s.get(i).copied().unwrap_or(0)
}

// The bytes from place i on.
fn bytes_from(s: &[u8], i: usize) -> &[u8]
    ensures { result.now ≡ drop i s.now }
{
    s.get(i..).unwrap_or(&[])
}

// The 16-bit number at place i. Two widths stay two functions: a trait over both would be longer than either.
pub fn word_at(s: &[u8], i: usize) -> u16
    ensures { result ≡ word s.now i }
{
    let rest = bytes_from(s, i);
    u16::from_le_bytes([byte_at(rest, 0), byte_at(rest, 1)])
}

// The 32-bit number at place i.
pub fn long_at(s: &[u8], i: usize) -> u32
    ensures { result ≡ long s.now i }
{
    let rest = bytes_from(s, i);
    u32::from_le_bytes([
        byte_at(rest, 0),
        byte_at(rest, 1),
        byte_at(rest, 2),
        byte_at(rest, 3),
    ])
}

// Stores a 16-bit number at place i.
pub fn put_word(s: &mut [u8], i: usize, v: u16)
    requires { i + 1 < length s.old }
    ensures { s.new ≡ sets s.old i (le2 v) }
{
    s[i..i + 2].copy_from_slice(&v.to_le_bytes());
}

// Stores a 32-bit number at place i.
pub fn put_long(s: &mut [u8], i: usize, v: u32)
    requires { i + 3 < length s.old }
    ensures { s.new ≡ sets s.old i (le4 v) }
{
    s[i..i + 4].copy_from_slice(&v.to_le_bytes());
}
