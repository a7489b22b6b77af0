//! A program that calls the analysis as a library: it prints the bound of a deck, and of each visit
//! of the worst walk where it begins and how many word times it takes. `memory_files` is another
//! way in: the whole program over files in memory, with what it promises of their bound.
#![tactic(auto)]

mod memory_files;

use drum_bound::analyse;
use drum_core::{Reading, read_deck};
use drum_times::{read_notes, read_times};
use std::fs::{self, File};

fn main(rt: HostRuntime) -> anyhow::Result<()> {
    let alloc = rt.alloc();
    let deck = read_deck(alloc, &mut Reading::new(File::open(&rt, "deck")?))?;
    let times = read_times(alloc, &fs::read(&rt, "times.toml")?)?;
    let notes = read_notes(alloc, &fs::read(&rt, "notes.toml")?)?;
    let analysis = analyse(alloc, &deck, &times, &notes)?;
    println!(rt; "at most {} word times", analysis.bound())?;
    for visit in analysis.walk() {
        println!(rt; "{:04} takes {}", visit.place.number(), visit.took)?;
    }
    Ok(())
}
