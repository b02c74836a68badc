// What is turned away, for which reason, and at which place.

// The reasons, in the order in which the scope numbers them from 1 on: eleven for a file, then those for what is asked of it.
#[derive(Clone, Copy, PartialEq, Eq)]
pub enum Reason {
    Header = 1,
    Edition,
    Spare,
    Limit,
    Offset,
    Length,
    Person,
    Step,
    Before,
    Row,
    Rule,
    Absentees,
    Position,
    Absence,
    Room,
}

// A number that no reason has.
#[derive(Clone, Copy, PartialEq, Eq)]
pub struct NoReason(pub u8);

// Turned away for a reason, at a place.
#[derive(Clone, Copy, PartialEq, Eq)]
pub struct Turned {
    pub reason: Reason,
    pub place: usize,
}

impl Reason {
    pub const ALL: [Reason; 15] = [
        Reason::Header,
        Reason::Edition,
        Reason::Spare,
        Reason::Limit,
        Reason::Offset,
        Reason::Length,
        Reason::Person,
        Reason::Step,
        Reason::Before,
        Reason::Row,
        Reason::Rule,
        Reason::Absentees,
        Reason::Position,
        Reason::Absence,
        Reason::Room,
    ];

    pub fn number(self) -> usize {
        self as usize
    }

    pub fn at(self, place: usize) -> Turned {
        Turned {
            reason: self,
            place: place,
        }
    }
}

impl TryFrom<u8> for Reason {
    type Error = NoReason;

    fn try_from(number: u8) -> Result<Reason, NoReason> {
        for reason in Reason::ALL {
            if reason.number() == usize::from(number) {
                return Ok(reason);
            }
        }
        Err(NoReason(number))
    }
}
