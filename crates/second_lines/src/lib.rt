// The scope's lines, written a second time. Nothing is promised here but safety.
#![tactic(auto)]

use second::{Answer, Question};
use second_files::{File, Turned, first, has};
use second_positions::Placed;
use std::fmt;
use std::fmt::Write;

// Room for the longest text, and for some more.
pub const TEXT: usize = 1000;

// Lines behind each other: the first `length` bytes. What has no room is left out, and no string grows, since telling may not run out of memory.
#[derive(Clone, Copy)]
pub struct Lines {
    bytes: [u8; TEXT],
    length: usize,
}

impl fmt::Write for Lines {
    fn write_str(&mut self, word: &str) -> fmt::Result {
        for x in word.bytes() {
            if self.length < TEXT {
                self.bytes[self.length] = x;
                self.length += 1;
            }
        }
        Ok(())
    }
}

impl Lines {
    // No line yet.
    pub fn none() -> Lines {
        Lines {
            bytes: [0; TEXT],
            length: 0,
        }
    }

    pub fn as_bytes(&self) -> &[u8] {
        first(&self.bytes, self.length)
    }

    // The counts of people, steps, roles, tables and rules.
    pub fn put_case(&mut self, file: &File) {
        let people = file.people();
        let steps = file.steps();
        let roles = file.roles();
        let tables = file.tables();
        let rules = file.rules();
        let _ = writeln!(self, "case {people} {steps} {roles} {tables} {rules}");
    }

    pub fn put_asked(&mut self, t: usize, limit: usize) {
        let _ = writeln!(self, "absent {t} limit {limit}");
    }

    pub fn put_refused(&mut self, turned: Turned) {
        let number = turned.reason.number();
        let place = turned.place;
        let _ = writeln!(self, "refused {number} at {place}");
    }

    // What a question about a case of n steps is answered: a yes of the plan question shows the persons, a no of a verdict the set.
    pub fn put_answer(&mut self, question: Question, n: usize, a: Answer) {
        let _ = write!(self, "{question}");
        match a {
            Answer::No { shown, .. } => {
                self.put(" no");
                if question != Question::Plan {
                    self.put_set(shown);
                }
            }
            Answer::Yes { shown, .. } => {
                self.put(" yes");
                if question == Question::Plan {
                    self.put_persons(Placed {
                        who: shown,
                        length: n,
                    });
                }
            }
            _ => self.put(" limit"),
        }
        let trials = a.trials();
        let _ = writeln!(self, " trials {trials}");
    }

    // The persons of a plan, or the word for none.
    fn put_persons(&mut self, plan: Placed) {
        if plan.length == 0 {
            self.put(" none");
        }
        for i in 0..plan.length {
            self.put_number(plan.person(i));
        }
    }

    // The members of a set, or the word for none.
    fn put_set(&mut self, set: usize) {
        if set == 0 {
            self.put(" none");
        }
        for v in 0..64 {
            if has(set, v) {
                self.put_number(v);
            }
        }
    }

    fn put_number(&mut self, x: usize) {
        let _ = write!(self, " {x}");
    }

    fn put(&mut self, word: &str) {
        let _ = self.write_str(word);
    }
}
