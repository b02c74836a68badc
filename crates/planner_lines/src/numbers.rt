// The numbers of a text.
ghost use Rattle.std.specs.Iterator.{at_most};

// The numbers that a text writes and that are not read yet. What is no digit stands between them.
#[derive(Clone, Copy)]
pub struct Numbers<'a> {
    text: &'a [u8],
    left: u8,
}

// What numbers of a text write.
pub trait Written: Copy {
    // What the next numbers write, or none where no number is left. Numbers that are missing behind the first are 0.
    fn read(numbers: &mut Numbers<'_>) -> Option<Self>;
}

impl<'a> Numbers<'a> {
    // How many numbers of a text are read.
    const MOST: u8 = 64;

    pub(crate) fn of(text: &'a [u8]) -> Numbers<'a> {
        Numbers {
            text,
            left: Self::MOST,
        }
    }

    // What the next numbers write. A line may leave numbers out at its end, and then 0 is what it means.
    pub(crate) fn get<T: Written + Default>(&mut self) -> T {
        T::read(self).unwrap_or_default()
    }
}

impl Iterator for Numbers<'_> {
    type Item = u32;

    ghost remaining = { λ n. at_most n.left };

    fn next(&mut self) -> Option<u32> {
        self.left = self.left.checked_sub(1)?;
        let start = self.text.iter().position(u8::is_ascii_digit)?;
        let text = &self.text[start..];
        let len = text
            .iter()
            .position(|b| !b.is_ascii_digit())
            .unwrap_or(text.len());
        let (digits, rest) = text.split_at(len);
        self.text = rest;
        Some(value(digits))
    }
}

// The low 32 bits of the number that digits write. Digits behind a number that is past 32 bits, or with one digit more would be, are left out.
fn value(digits: &[u8]) -> u32 {
    let number = digits.iter().fold(0u64, |number, digit| {
        if number <= u64::from(u32::MAX / 10) {
            // The low bits of a digit's byte are its value.
            number * 10 + u64::from(*digit & 0x0f)
        } else {
            number
        }
    });
    (number & 0xffff_ffff) as u32
}

impl Written for u8 {
    fn read(numbers: &mut Numbers<'_>) -> Option<u8> {
        numbers.next().map(|n| (n & 0xff) as u8)
    }
}

impl Written for u16 {
    fn read(numbers: &mut Numbers<'_>) -> Option<u16> {
        numbers.next().map(|n| (n & 0xffff) as u16)
    }
}

impl Written for u32 {
    fn read(numbers: &mut Numbers<'_>) -> Option<u32> {
        numbers.next()
    }
}
