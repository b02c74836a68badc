// Tries the writer: files that are read are written again, into buffers that have room and into buffers that have not; good cases with rubbish above
// their counts, and bad ones. One line per try: its name, what the writer answers, and what it left in the buffer.
#![tactic(auto)]

mod changed;
mod shown;

use changed::{with_form, with_people, with_person, with_row, with_rule, with_spare, with_step};
use samples::{campfire, largest, related};
use shown::{again, held, show};
use std::io;

fn main(rt: HostRuntime) -> io::Result<()> {
    rooms(&rt)?;
    others(&rt)?;
    rubbish(&rt)?;
    refused(&rt)?;
    two_at_once(&rt)
}

// The campfire into buffers of several lengths.
fn rooms(rt: &impl Print) -> io::Result<()> {
    let tries = [
        ("campfire into 42 bytes", 42),
        ("campfire into 43 bytes", 43),
        ("campfire into 1100 bytes", 1100),
        ("campfire into 41 bytes", 41),
        ("campfire into no bytes", 0),
    ];
    for (name, room) in tries {
        again(rt, name, campfire(), room)?;
    }
    Ok(())
}

// Other files.
fn others(rt: &impl Print) -> io::Result<()> {
    let bad = campfire().byte(0, 2);
    let tries = [
        ("with a table into 54 bytes", related(), 54),
        ("with a table into 53 bytes", related(), 53),
        (
            "all counts at their limits into 1016 bytes",
            largest(),
            1016,
        ),
        (
            "all counts at their limits into 1015 bytes",
            largest(),
            1015,
        ),
        (
            "a refused file, and so the empty case, into 24 bytes",
            bad,
            24,
        ),
        ("the empty case into 23 bytes", bad, 23),
    ];
    for (name, file, room) in tries {
        again(rt, name, file, room)?;
    }
    Ok(())
}

// What stands above a count is not written, and no case is bad for it.
fn rubbish(rt: &impl Print) -> io::Result<()> {
    let case = held(campfire());
    let tries = [
        (
            "a fourth person with all roles",
            with_person(case, 3, 65535),
        ),
        ("a third step with a spare byte", with_spare(case, 2)),
        ("a row without a table", with_row(case, 0)),
        ("a second rule of form 9", with_form(case, 1, 9)),
    ];
    for (name, case) in tries {
        show(rt, name, case, campfire(), 50)?;
    }
    Ok(())
}

// Bad cases in memory: 4 and 7 to 11, at the places that the file would have had. The buffer stays as it was.
fn refused(rt: &impl Print) -> io::Result<()> {
    let case = held(campfire());
    let row = with_row(held(related()), 1);
    let tries = [
        ("33 people", with_people(case, 33), campfire(), 50),
        (
            "person 2 holds role 2",
            with_person(case, 2, 4),
            campfire(),
            50,
        ),
        ("step 1 names role 2", with_step(case, 1, 4), campfire(), 50),
        (
            "step 1 has a spare byte",
            with_spare(case, 1),
            campfire(),
            50,
        ),
        ("a row names person 31", row, related(), 60),
        ("form 4", with_form(case, 0, 4), campfire(), 50),
        (
            "relation 2 without a table",
            with_rule(case, 2),
            campfire(),
            50,
        ),
    ];
    for (name, case, file, room) in tries {
        show(rt, name, case, file, room)?;
    }
    Ok(())
}

// The lower number is given, and 15 last.
fn two_at_once(rt: &impl Print) -> io::Result<()> {
    let case = held(campfire());
    let two = with_form(with_person(case, 1, 4), 0, 0);
    let tries = [
        ("4 and 15", with_people(case, 33), 0),
        ("7 and 15", with_person(case, 0, 4), 41),
        ("11 and 15", with_form(case, 0, 0), 41),
        ("7 and 11", two, 50),
    ];
    for (name, case, room) in tries {
        show(rt, name, case, campfire(), room)?;
    }
    Ok(())
}
