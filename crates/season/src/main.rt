// Season figures (change request E12): reads a concatenation of log tables on standard input, each preceded by its size in
// four bytes, and prints what each comes to, and all together. What is printed is decided in `season_step::step::step`; here an
// entry is read, a step made, its lines written. The one buffer that is read into has 64 KiB.
#![tactic(auto)]

ghost use Rattle.std.specs.Prelude.{◌≡◌, ◌+◌, ◌≤◌, length, IfOk, IfSome};

use anyhow::{Context, Result};
use programs::ending::end;
use season_step::step::{LINES_BYTES, Run, SIZE_BYTES, begun, step, table_bytes};
use std::io;
use std::io::Read;
use std::process::ExitCode;

// Reads until `buf` is full or the input ends, and answers how many bytes it read. By `read`, as `read_exact` does not say how
// many bytes came before an input's end.
fn read_part(input: &mut impl Read, buf: &mut [u8]) -> io::Result<usize>
    ensures { IfOk result (λ bytes. bytes ≤ length buf.old) }
{
    let mut done = 0;
    while done < buf.len() {
        let more = input.read(&mut buf[done..])?;
        if more == 0 {
            return Ok(done);
        }
        done += more;
    }
    Ok(done)
}

// An entry: four bytes, and the table that they ask for.
fn read_entry(input: &mut impl Read, buf: &mut [u8]) -> io::Result<usize>
    requires { 65536 ≤ length buf.old }
    ensures { IfOk result (λ bytes. bytes ≤ length buf.old) }
{
    let n = read_part(input, &mut buf[..SIZE_BYTES])?;
    let end = SIZE_BYTES + table_bytes(&buf[..n]);
    let table = read_part(input, &mut buf[SIZE_BYTES..end])?;
    Ok(n + table)
}

// An entry read, a step made, its lines written. Answers where the run stands, if it goes on.
fn turn(rt: &HostRuntime, run: Run, buf: &mut [u8]) -> Result<Option<Run>>
    requires { 65536 ≤ length buf.old }
    ensures { IfOk result (λ next. IfSome next (λ after. (run.position ≤ 65535) × (after.position ≡ run.position + 1))) }
{
    let n = read_entry(&mut rt.stdin(), buf).context("the input could not be read")?;
    let mut out = [0u8; LINES_BYTES];
    let progress = step(run, &buf[..n], &mut out);
    rt.stdout()
        .write_all(&out[..progress.len])
        .context("the figures could not be written")?;
    Ok(progress.run.continue_value())
}

// Turn after turn, as long as the run goes on.
fn season(rt: &HostRuntime) -> Result<()> {
    let mut buf = [0u8; 65536];
    let mut next = Some(begun());
    while let Some(run) = next {
        next = turn(rt, run, &mut buf)?;
    }
    Ok(())
}

// What could not be read or written is said on standard error, and nothing more is written.
fn main(rt: HostRuntime) -> ExitCode {
    end(&rt, "season", season(&rt))
}
