// Lines about a file.
use cases::Counts;
use files::{judge, part_of, read};
use layout::Part;
use std::io;

const PARTS: [Part; 4] = [Part::People, Part::Steps, Part::Tables, Part::Rules];

// The line of a try.
pub fn show(rt: &impl Print, name: &[u8], file: &[u8]) -> io::Result<()> {
    rt.write_all(name)?;
    match judge(file) {
        Ok(()) => print!(rt; ": good")?,
        Err(why) => print!(rt; ": refused {} at {}", why.number, why.place)?,
    }
    let Counts {
        people,
        steps,
        roles,
        tables,
        rules,
    } = read(file).held.counts;
    print!(rt; "; case {people} {steps} {roles} {tables} {rules}; parts")?;
    for part in PARTS {
        print!(rt; " {}", part_of(file, part).len())?;
    }
    println!(rt;)
}

// The bytes of each part.
pub fn show_parts(rt: &impl Print, file: &[u8]) -> io::Result<()> {
    for part in PARTS {
        print!(rt; "part")?;
        for byte in part_of(file, part) {
            print!(rt; " {byte}")?;
        }
        println!(rt;)?;
    }
    Ok(())
}
