// Reads stored cases: figures of documents 01 and 02, figures outside their ranges, and many roofs. Runs each through the
// maker, the reader and the local forces, asks for the ground load of every place on the map, tries stores of national sets, holds
// every answer to the stored figure or to a second calculation, and writes what it counted.
#![tactic(auto)]

mod cases;
mod ground;
mod lines;
mod report;

use anyhow::{Context, Result};
use lines::compare_lines;
use program_inputs::{argument, read_full};
use report::Report;
use std::fs;

// Room for any file's name. `trials` has its own: sharing the number would be no shorter.
const PATH_ROOM: usize = 4_096;

// Room for a file.
const FILE_ROOM: usize = 65_536;

// Compares the lines of the file that an argument names. What lies past the room for it is not read, which is said and shows in the
// counts.
fn compare_file(rt: &HostRuntime, report: &mut Report, number: usize) -> Result<()> {
    let mut path_room = [0u8; PATH_ROOM];
    let path = argument(rt, number, &mut path_room).context("file name")?;
    let mut file = fs::open(rt, path).context(path)?;
    let mut room = [0u8; FILE_ROOM];
    let n = read_full(&mut file, &mut room).context("read")?;
    if n == 0 {
        eprintln!(rt; "read: the file is empty")?;
    }
    if n == FILE_ROOM {
        eprintln!(rt; "read: the file is too long")?;
    }
    compare_lines(rt.alloc(), &rt.stderr(), report, &room[..n])?;
    Ok(())
}

fn main(rt: HostRuntime) -> Result<()> {
    let mut report = Report::default();
    for number in 1..=4 {
        compare_file(&rt, &mut report, number)?;
    }
    report.ground = ground::compare_places();
    report.days = worked_sets::sets_on_days();
    report.stores = worked_sets::every_store();
    report.sets = worked_sets::sets_added();
    println!(rt; "{report}").context("write")
}
