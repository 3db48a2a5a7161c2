// canonical: reads a sheet from standard input and writes it in the one way to standard output.
#![tactic(auto)]

use anyhow::{Context, Result};
use canonical_sheets::{SHEET_BYTES, STORE_NUMBERS, archive};
use program_inputs::{SHEET_ROOM, read_whole};

// Nothing is written from a sheet that was not read whole.
fn main(rt: HostRuntime) -> Result<()> {
    let mut sheet = [0; SHEET_ROOM];
    let n = read_whole(&mut rt.stdin(), &mut sheet).context("read")?;
    // The program has an empty store.
    let store = [0; STORE_NUMBERS];
    let mut text = [0; SHEET_BYTES];
    let written = archive(&store, &sheet[..n], &mut text);
    rt.write_all(&text[..written]).context("write")
}
