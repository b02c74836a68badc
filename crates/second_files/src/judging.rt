// A file judged: its header reason by reason, and then for one reason after the other entry by entry.
use crate::file::{File, person_at};
use crate::numbers::{down, plus, size};
use crate::reason::{Reason, Turned};

impl File {
    pub fn judged(&self) -> Result<(), Turned> {
        if let Some(reason) = self.header_reason() {
            return Err(reason.at(0));
        }
        let roles = self.roles();
        let entries = self.people();
        all_good(Reason::Person, entries, person_at, |_, at| {
            down(self.word(at), roles) == 0
        })?;
        let entries = self.steps();
        all_good(
            Reason::Step,
            entries,
            |s| self.step_at(s),
            |_, at| { down(self.word(at), roles) == 0 },
        )?;
        all_good(
            Reason::Before,
            entries,
            |s| self.step_at(s),
            |s, at| { self.is_good_before(s, at) },
        )?;
        let people = self.people();
        let entries = self.rows();
        all_good(
            Reason::Row,
            entries,
            |i| self.row_at(i),
            |_, at| { down(self.long(at), people) == 0 },
        )?;
        let entries = self.rules();
        all_good(
            Reason::Rule,
            entries,
            |r| self.rule_at(r),
            |_, at| { self.is_good_rule(at) },
        )
    }

    // The first reason that the header meets.
    fn header_reason(&self) -> Option<Reason> {
        if self.length < 24 {
            Some(Reason::Header)
        } else if self.word(0) != 1 {
            Some(Reason::Edition)
        } else if self.word(22) != 0 {
            Some(Reason::Spare)
        } else if self.is_above_limit() {
            Some(Reason::Limit)
        } else if self.is_misplaced() {
            Some(Reason::Offset)
        } else if self.length != self.word(20) {
            Some(Reason::Length)
        } else {
            None
        }
    }

    fn is_above_limit(&self) -> bool {
        32 < self.people()
            || 8 < self.steps()
            || 16 < self.roles()
            || 6 < self.tables()
            || 32 < self.rules()
    }

    fn is_misplaced(&self) -> bool {
        self.word(12) != 24
            || self.word(14) != self.step_at(0)
            || self.word(16) != self.row_at(0)
            || self.word(18) != self.rule_at(0)
            || self.word(20) != self.total()
    }

    // Are only steps before step s asked to come before it, and is the last byte 0?
    fn is_good_before(&self, s: usize, at: usize) -> bool {
        down(self.byte(plus(at, 2)), s) == 0 && self.byte(plus(at, 3)) == 0
    }

    fn is_good_rule(&self, at: usize) -> bool {
        let form = self.byte(at);
        let group = self.byte(plus(at, 3));
        1 <= form
            && form <= 3
            && self.byte(plus(at, 1)) < plus(2, self.tables())
            && self.byte(plus(at, 2)) < self.steps()
            && down(group, self.steps()) == 0
            && group != 0
            && (form != 1 || size(group) == 1)
    }
}

// Are all entries good? Else the first one that is not is turned away.
fn all_good<P: Fn(usize) -> usize, G: Fn(usize, usize) -> bool>(
    reason: Reason,
    entries: usize,
    place_of: P,
    is_good: G,
) -> Result<(), Turned>
    requires places { P.IsAlwaysCallable place_of }
    requires tests { G.IsAlwaysCallable is_good }
{
    for i in 0..entries {
        let place = place_of(i);
        if !is_good(i, place) {
            return Err(reason.at(place));
        }
    }
    Ok(())
}
