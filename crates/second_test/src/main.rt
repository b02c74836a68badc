// Compares the planner with the second search on inputs drawn by chance from a fixed seed, and prints how many there were of each kind, and the first
// difference in full.
#![tactic(auto)]

use second_cases::try_case;
use second_damaged::try_damaged;
use second_draws::{Chance, draw};
use second_faults::FAULTS;
use second_positions::Slate;
use second_shapes::{Drawn, large, middle, small};
use second_tally::{Kind, Tally};
use std::io;

fn main(rt: HostRuntime) -> io::Result<()> {
    let mut chance = Chance::new(88172645463325252);
    let mut slate = Slate::new(rt.alloc())?;
    let mut tally = Tally::new();
    tally.begin(Kind::Damaged);
    try_damaged_files(&rt, &mut chance, &mut tally)?;
    tally.begin(Kind::Small);
    for _ in 0..3600 {
        let drawn = small(&mut chance);
        try_drawn(&rt, &mut chance, &mut slate, &mut tally, drawn)?;
    }
    tally.begin(Kind::Middle);
    for turn in 0..600 {
        let drawn = middle(&mut chance, turn);
        try_drawn(&rt, &mut chance, &mut slate, &mut tally, drawn)?;
    }
    tally.begin(Kind::Large);
    for turn in 0..480 {
        let drawn = large(&mut chance, turn);
        try_drawn(&rt, &mut chance, &mut slate, &mut tally, drawn)?;
    }
    tally.print_all(&rt)
}

// Every fault alone and every two faults together, many times.
fn try_damaged_files(rt: &impl Print, chance: &mut Chance, tally: &mut Tally) -> io::Result<()> {
    for _ in 0..55 {
        for fault in FAULTS {
            try_damaged(rt, chance, tally, fault, None)?;
        }
        for other in FAULTS {
            for fault in FAULTS {
                try_damaged(rt, chance, tally, fault, Some(other))?;
            }
        }
    }
    Ok(())
}

fn try_drawn(
    rt: &impl Print,
    chance: &mut Chance,
    slate: &mut Slate,
    tally: &mut Tally,
    drawn: Drawn,
) -> io::Result<()> {
    let file = draw(chance, drawn.shape);
    try_case(rt, chance, slate, tally, &file, drawn.t)
}
