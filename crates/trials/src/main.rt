// Reads stored sheets, sound and damaged, and holds the library's listing of each against the text stored with it, and the
// quote desk's reading of it against a terminal's; then stored layouts, and holds what the library writes in the one way against
// the text stored with each.
#![tactic(auto)]

mod desk;
mod layouts;
mod listed;
mod records;
mod report;

ghost use Rattle.std.specs.Prelude.{◌≤◌, length};
ghost use Rattle.listing.specs.Listing.{list_room};

use anyhow::{Context, Result};
use listing::LIST_ROOM;
use program_inputs::{argument, read_full};
use records::{Damaged, Records, StoredFile};
use report::{LAST_LINES, LINES_ROOM, Totals};
use std::fs;
use std::io::Read;

// Room for any file's name. `worked` has its own: sharing the number would be no shorter.
const PATH_ROOM: usize = 4_096;

// Room for the file of sheets. What lies past it is not read, and counts as damaged.
const FILE_ROOM: usize = 524_288;

// Reads a file as far as the room for it goes, in one pass. One read more tells whether it goes on.
fn read_file<'a>(file: &mut impl Read, room: &'a mut [u8]) -> Result<StoredFile<'a>> {
    let n = read_full(file, room).context("read")?;
    let goes_on = file.read(&mut [0]).context("read")? > 0;
    Ok(StoredFile {
        bytes: &room[..n],
        goes_on,
    })
}

// Compares the records of a file in turn and writes at once what they came to; the room takes one listing after the other. Where most
// sheets differ, the lines on the last of them are left out.
fn compare(rt: &(impl AllocGlobal + Print), file: StoredFile<'_>, room: &mut [u8]) -> Result<()>
    requires { list_room ≤ length room.old }
{
    let mut lines = String::with_capacity(rt.alloc(), LINES_ROOM)?;
    let mut totals = Totals::default();
    for (number, record) in Records::new(file).enumerate() {
        match record {
            Ok(record) => {
                let outcome = listed::compare(record, room);
                if !outcome.is_as_stored() && lines.len() <= LINES_ROOM - LAST_LINES {
                    writeln!(lines, "DIFFERENT {number}")?;
                }
                totals.add(outcome);
            }
            Err(Damaged) => writeln!(lines, "DAMAGED {number}")?,
        }
    }
    writeln!(lines, "{totals}")?;
    rt.write_all(lines.as_bytes()).context("write")
}

// Reads the files that the two arguments name, or says why it can't. The lines on the first are written before the second argument is
// looked at.
fn main(rt: HostRuntime) -> Result<()> {
    let mut path_room = [0u8; PATH_ROOM];
    let path = argument(&rt, 1, &mut path_room).context("file name")?;
    let mut file = fs::open(&rt, path).context(path)?;
    let mut file_room = vec![in rt.alloc(); 0u8; FILE_ROOM]?;
    let sheets = read_file(&mut file, &mut file_room)?;
    let mut room = vec![in rt.alloc(); 0u8; LIST_ROOM]?;
    compare(&rt, sheets, &mut room)?;
    let path = argument(&rt, 2, &mut path_room).context("file name")?;
    let bytes = fs::read(&rt, path).context(path)?;
    let layouts = StoredFile {
        bytes: &bytes,
        goes_on: false,
    };
    layouts::compare(&rt, layouts).context("write")
}
