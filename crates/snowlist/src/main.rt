// snowlist: reads a sheet from standard input and writes its listing to standard output.
#![tactic(auto)]

use anyhow::{Context, Result};
use listing::{LIST_ROOM, NUMBERS};
use program_inputs::{SHEET_ROOM, read_whole};

// Zeros. Their number is a parameter, since the check counts a large literal one out.
fn zeros<const N: usize>() -> [u8; N] {
    [0; N]
}

// Nothing is listed from a sheet that was not read whole.
fn main(rt: HostRuntime) -> Result<()> {
    let mut sheet = [0; SHEET_ROOM];
    let n = read_whole(&mut rt.stdin(), &mut sheet).context("read")?;
    // The program has an empty store.
    let store = [0; listing::STORE_NUMBERS];
    let mut numbers = [0; NUMBERS];
    let mut text = zeros::<LIST_ROOM>();
    let written = listing::list(&store, &sheet[..n], &mut numbers, &mut text);
    rt.write_all(&text[..written]).context("write")
}
