// A program that reads a log table on standard input and writes lines made of it.
ghost use Rattle.std.specs.Prelude.{◌≡◌, ◌≤◌, length, take};

use anyhow::{Context, Result};
use std::io::Read;

// More bytes than the largest table has, so that input that is too long is seen to be.
const INPUT_BYTES: u64 = 65536;

// What was made: the buffer's first `len` bytes, and no more.
fn made(out: &[u8; 65536], len: usize) -> &[u8]
    requires { len ≤ length out.now }
    ensures { result.now ≡ take len out.now }
{
    &out[..len]
}

// The lines are all made in one buffer, by `fill`, which answers how many bytes of it they are. That what is handed over is `made` is
// to be read here: no clause can speak of what was written.
pub fn print_lines<F: FnOnce(&[u8], &mut [u8; 65536]) -> usize>(
    rt: &HostRuntime,
    fill: F,
    unwritten: &'static str,
) -> Result<()>
    requires callable { F.IsAlwaysCallable fill }
    requires within { (table : _) (out : _) (len : _) (filled : _) → F.post fill table out len filled → len ≤ length filled.now }
{
    let mut table = Vec::new(rt.alloc());
    rt.stdin()
        .take(INPUT_BYTES)
        .read_to_end(&mut table)
        .context("the table could not be read")?;
    let mut out = [0u8; 65536];
    let len = fill(&table, &mut out);
    rt.stdout().write_all(made(&out, len)).context(unwritten)
}
