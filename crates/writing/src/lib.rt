// Writes a case as a file into a lent buffer. Each part's writer is lent that part's own stretch of the buffer and knows nothing of the rest.
#![tactic(auto)]

ghost use Rattle.std.specs.Prelude.{◌≡◌, ℕ, List, ◌++◌, ◌+◌, ◌-◌, ◌*◌, ◌≤◌, length, get_or, drop};
ghost use Rattle.std.proofs.lemmas.List.Edits.{sets};
ghost use Rattle.sets.specs.Stored.{no_people};
ghost use Rattle.cases.specs.Case.{zero_step, zero_rule};
ghost use Rattle.words.specs.Part.{run, splice};
ghost use Rattle.refusals.specs.Offsets.{person_bytes, step_bytes, row_bytes, rule_bytes, total_of};
ghost use Rattle.refusals.specs.CaseChecks.{Limited};
ghost use Rattle.layout.specs.Layout.{start_of, end_of, file_of, head_bytes, bytes_of_person, bytes_of_step, bytes_of_row, bytes_of_rule};
ghost use Rattle.writing.specs.Writing.{judged_write, write_answer, written, part_bytes, with_part};
ghost use Rattle.layout.proofs.Entries.{person_long, step_long, row_long, rule_long};

use cases::{Case, Counts, Rule, StepEntry};
use judging::judge_case;
use layout::{Part, end, rows, rules_at, start, steps_at, tables_at, total};
use refusals::{Refusal, or_else, refused_if};
use sets::People;
use words::{put_long, put_word};

// Writes the case as a file to the front of the buffer, and says how many bytes that took; what stands past them stays. The case is judged by 4
// and 7 to 11, and then the buffer by 15. A refused write changes no byte. Entries above a count are not looked at.
pub fn write(case: Case, buffer: &mut [u8]) -> Result<u16, Refusal>
    ensures { (result ≡ write_answer (length buffer.old) case) × (buffer.new ≡ written buffer.old case) }
{
    judge_write(&case, buffer.len())?;
    write_file(&case, buffer);
    let bytes = total(case.counts) as u16;
    Ok(bytes)
}

// The case first, then the room for its file.
fn judge_write(case: &Case, room: usize) -> Result<(), Refusal>
    ensures { result ≡ judged_write room case.now }
{
    let short = room < total(case.counts);
    or_else(judge_case(*case), refused_if(short, 15, 0))
}

// The header, then the four parts. Counts within their limits stand in clauses, as in `judging`.
fn write_file(case: &Case, buffer: &mut [u8])
    requires { Limited case.now.counts × (total_of case.now.counts ≤ length buffer.old) }
    ensures { buffer.new ≡ file_of case.now ++ drop (total_of case.now.counts) buffer.old }
{
    lend_header(case.counts, buffer);
    lend_part(case, Part::People, buffer);
    lend_part(case, Part::Steps, buffer);
    lend_part(case, Part::Tables, buffer);
    lend_part(case, Part::Rules, buffer);
}

// Lends the header's stretch of the buffer to its writer.
fn lend_header(counts: Counts, buffer: &mut [u8])
    requires { Limited counts × (total_of counts ≤ length buffer.old) }
    ensures { buffer.new ≡ splice buffer.old 0 24 (head_bytes counts) }
{
    write_header(counts, &mut buffer[0..24]);
}

// Lends a part's stretch of the buffer to its writer.
fn lend_part(case: &Case, part: Part, buffer: &mut [u8])
    requires { Limited case.now.counts × (total_of case.now.counts ≤ length buffer.old) }
    ensures { buffer.new ≡ with_part buffer.old case.now part }
{
    let a = start(case.counts, part);
    let e = end(case.counts, part);
    write_part(case, part, &mut buffer[a..e]);
}

// The header: twelve 16-bit numbers.
fn write_header(counts: Counts, stretch: &mut [u8])
    requires { Limited counts × (length stretch.old ≡ 24) }
    ensures { stretch.new ≡ head_bytes counts }
{
    let words = [
        1,
        counts.people,
        counts.steps,
        counts.roles,
        counts.tables,
        counts.rules,
        24,
        steps_at(counts) as u16,
        tables_at(counts) as u16,
        rules_at(counts) as u16,
        total(counts) as u16,
        0,
    ];
    write_entries(&words, stretch);
}

// The entries of a part that are in use.
fn write_part(case: &Case, part: Part, stretch: &mut [u8])
    requires { Limited case.now.counts × (length stretch.old ≡ end_of case.now.counts part - start_of case.now.counts part) }
    ensures { stretch.new ≡ part_bytes case.now part }
{
    let n = case.counts;
    match part {
        Part::People => write_entries(&case.people[..n.people as usize], stretch),
        Part::Steps => write_entries(&case.steps[..n.steps as usize], stretch),
        Part::Tables => write_entries(&case.rows[..rows(n)], stretch),
        Part::Rules => write_entries(&case.rules[..n.rules as usize], stretch),
    }
}

// Entries, one after the other.
fn write_entries<E: Entry>(entries: &[E], stretch: &mut [u8])
    requires { length stretch.old ≡ E.BYTES * length entries.now }
    ensures { stretch.new ≡ run (λ i. E.bytes_of (get_or entries.now i E.zero)) (length entries.now) }
{
    for (i, entry) in entries.iter().enumerate() {
        entry.put(stretch, E::BYTES * i);
    }
}

// An entry of a part, and the bytes that write it. Reading has a trait of its own, in `entries`, which knows nothing of writing.
trait Entry: Copy {
    // How many bytes an entry has.
    const BYTES: usize;

    ghost BYTES: { ℕ };

    ghost zero: { Self };

    ghost bytes_of: { Self → List ℕ };

    // Stores the bytes at place i.
    fn put(self, s: &mut [u8], i: usize)
        requires { i + BYTES ≤ length s.old }
        ensures { s.new ≡ sets s.old i (bytes_of self) };

    ghost long: { (entry : Self) → length (bytes_of entry) ≡ BYTES };
}

// A person: the set of roles held. A number of the header is written alike.
impl Entry for u16 {
    const BYTES: usize = 2;

    ghost BYTES = { person_bytes };

    ghost zero = { 0 };

    ghost bytes_of = { bytes_of_person };

    ghost long = { person_long };

    fn put(self, s: &mut [u8], i: usize) {
        put_word(s, i, self);
    }
}

// A step: the roles that may do it, the steps that must precede it, and the spare byte.
impl Entry for StepEntry {
    const BYTES: usize = 4;

    ghost BYTES = { step_bytes };

    ghost zero = { zero_step };

    ghost bytes_of = { bytes_of_step };

    ghost long = { step_long };

    fn put(self, s: &mut [u8], i: usize) {
        put_word(s, i, self.roles);
        s[i + 2] = self.before;
        s[i + 3] = self.spare;
    }
}

// A table row: bit v for person v.
impl Entry for People {
    const BYTES: usize = 4;

    ghost BYTES = { row_bytes };

    ghost zero = { no_people };

    ghost bytes_of = { bytes_of_row };

    ghost long = { row_long };

    fn put(self, s: &mut [u8], i: usize) {
        put_long(s, i, self.word());
    }
}

// A rule: form, relation, step s, set X.
impl Entry for Rule {
    const BYTES: usize = 4;

    ghost BYTES = { rule_bytes };

    ghost zero = { zero_rule };

    ghost bytes_of = { bytes_of_rule };

    ghost long = { rule_long };

    fn put(self, s: &mut [u8], i: usize) {
        s[i] = self.form;
        s[i + 1] = self.relation;
        s[i + 2] = self.step.0;
        s[i + 3] = self.group;
    }
}
