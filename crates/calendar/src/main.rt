// What the log showed, on a calendar (change request E4): reads a log table on standard input and prints its records with date, clock
// time and local time. All that it prints is in one buffer, which the proved function `calendar` fills.
#![tactic(auto)]

use calendar_list::calendar::calendar;
use programs::ending::end;
use programs::lines::print_lines;
use std::process::ExitCode;

fn main(rt: HostRuntime) -> ExitCode {
    let outcome = print_lines(&rt, calendar, "the lines could not be written");
    end(&rt, "calendar", outcome)
}
