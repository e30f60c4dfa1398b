// Dates of Base_Times (change request E4): reads them on standard input, four bytes each as records hold them, and prints each with its date
// and with the seconds that this date turns back to. By it the calendar's reckoning is compared with any other, on every second.
#![tactic(auto)]

ghost use Rattle.std.specs.Prelude.{◌≡◌, ◌≤◌, length};
ghost use Rattle.text.specs.Laid.{filled, laid};
ghost use Rattle.dates.specs.Moments.{moment_line};

use anyhow::{Context, Result, ensure};
use calendar_dates::dates::{date_of_seconds, seconds_of_date};
use calendar_text::written::{put_dated, put_number_and};
use octets::numbers::get32;
use programs::ending::end;
use std::io::Read;
use std::process::ExitCode;

// A run is to end, whatever comes: after so many numbers it does.
const MOST_NUMBERS: u32 = 4_294_967_295;

const NUMBER_BYTES: u64 = 4;

// A date that is found always turns back to a second.
fn put_moment(out: &mut [u8], seconds: u32) -> usize
    requires { 64 ≤ length out.old }
    ensures { filled result out.new ≡ laid out.old 0 (moment_line seconds) }
{
    let dated = date_of_seconds(seconds as u64);
    let Some(back) = dated.and_then(seconds_of_date) else {
        return put_dated(out, 0, None, b'\n');
    };
    let end = put_dated(out, 0, dated, b' ');
    put_number_and(out, end, back, b'\n')
}

// A number read, its line written. Does the run go on?
fn turn(rt: &HostRuntime, number: &mut Vec<u8>) -> Result<bool> {
    number.clear();
    let n = rt
        .stdin()
        .take(NUMBER_BYTES)
        .read_to_end(number)
        .context("the input could not be read")?;
    if n == 0 {
        return Ok(false);
    }
    ensure!(n >= 4, "the input stops inside a number");
    let mut out = [0u8; 64];
    let len = put_moment(&mut out, get32(number, 0));
    rt.stdout()
        .write_all(&out[..len])
        .context("a line could not be written")?;
    Ok(true)
}

fn print_dates(rt: &HostRuntime) -> Result<()> {
    let mut number = Vec::new(rt.alloc());
    for _ in 0..MOST_NUMBERS {
        if !turn(rt, &mut number)? {
            break;
        }
    }
    Ok(())
}

fn main(rt: HostRuntime) -> ExitCode {
    end(&rt, "dates", print_dates(&rt))
}
