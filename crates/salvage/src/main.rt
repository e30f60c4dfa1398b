// Salvage (change request E9): reads a damaged log table on standard input and writes the one that was got back to standard output,
// the report in words to standard error. All that is written is in two buffers, which the proved function `tell` fills.
#![tactic(auto)]

use anyhow::{Context, Result};
use programs::ending::end;
use salvage_text::told::tell;
use std::io::Read;
use std::process::ExitCode;

// More bytes than the largest table has, so that input that is too long is seen to be.
const INPUT_BYTES: u64 = 65536;

// Half a table that came before an error does not pass for a whole one: nothing is written of it. The status is 0 where a table was
// written, and a refusal, which writes none, has 1.
fn get_back(rt: &HostRuntime) -> Result<ExitCode> {
    let mut input = Vec::new(rt.alloc());
    rt.stdin()
        .take(INPUT_BYTES)
        .read_to_end(&mut input)
        .context("the input could not be read")?;
    let mut table = [0u8; 65536];
    let mut out = [0u8; 65536];
    let told = tell(&input, &mut table, &mut out);
    let size = told.table;
    rt.stdout()
        .write_all(&table[..size])
        .context("the table could not be written")?;
    let len = told.told;
    rt.stderr()
        .write_all(&out[..len])
        .context("the report could not be written")?;
    Ok(if size == 0 {
        ExitCode::FAILURE
    } else {
        ExitCode::SUCCESS
    })
}

fn main(rt: HostRuntime) -> ExitCode {
    match get_back(&rt) {
        Ok(status) => status,
        Err(why) => end(&rt, "salvage", Err(why)),
    }
}
