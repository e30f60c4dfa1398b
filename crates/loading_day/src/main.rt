// The loading day: plays an ordinary day on a ramp of two antennas and prints the drivers' sheet.
#![tactic(auto)]

mod page;
mod story;
mod written;

ghost use Rattle.std.specs.Prelude.{◌≡◌, ◌≤◌};
ghost use Rattle.loading_day.specs.Page.{page_text, sheet_of};
ghost use Rattle.loading_day.specs.Story.{the_day, the_tags};

use anyhow::Context;
use page::{Page, sheet};
use programs::ending::end;
use std::process::ExitCode;
use story::{day, tags};

// The sheet of the story.
fn today() -> Page
    ensures { (page_text result ≡ sheet_of the_day the_tags) × (result.len ≤ 864) }
{
    sheet(day(), tags())
}

// A sheet that could not be written is said on standard error, and the status is 1.
fn main(rt: HostRuntime) -> ExitCode {
    let page = today();
    let bytes = page.bytes;
    let len = page.len;
    let written = rt
        .stdout()
        .write_all(&bytes[..len])
        .context("the sheet could not be written");
    end(&rt, "loading_day", written)
}
