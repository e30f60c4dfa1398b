// What the program writes, in two buffers: the table that came back, and what is said of it.
ghost use Rattle.std.specs.Prelude.{◌≡◌, ℕ, ◌*◌, ◌/◌, ◌≤◌, length};
ghost use Rattle.text.specs.Laid.{filled, laid};
ghost use Rattle.salvage_report.specs.Report.{entry_length};
ghost use Rattle.salvage_text.specs.Told.{report_room, report_lines, told_by, back_by, printed, tell_of};

use crate::lines::{entry_line, refused_line};
use salvage_call::salvage::{SalvageError, salvage, salvage_number};
use salvage_report::entry::ENTRY_BYTES;
use text::line::put_line;

// How many bytes of either buffer are to be written.
#[derive(Clone, Copy)]
pub struct Told {
    pub table: usize,
    pub told: usize,
}

// The room for any report: 16 bytes for each of 1,023 slots and of five header fields.
const REPORT_ROOM: usize = 16448;

// A line for each entry.
fn put_lines(out: &mut [u8], report: &[u8]) -> usize
    requires { (53 * (length report.now / entry_length) ≤ length out.old) × (length report.now ≤ report_room) }
    ensures { filled result out.new ≡ laid out.old 0 (report_lines report.now) }
{
    let mut end = 0;
    for entry in report.chunks_exact(ENTRY_BYTES) {
        end = put_line(out, end, entry_line(entry));
    }
    end
}

// What is said of an answer.
fn put_told(out: &mut [u8], answer: Result<usize, SalvageError>, report: &[u8]) -> usize
    requires { (65536 ≤ length out.old) × (length report.now ≤ report_room) × ((n : ℕ) → answer ≡ Ok n → n ≤ length report.now) }
    ensures { filled result out.new ≡ laid out.old 0 (told_by answer report.now) }
{
    match answer {
        Ok(n) => put_lines(out, &report[..n]),
        Err(_) => put_line(out, 0, refused_line(salvage_number(answer))),
    }
}

fn back(answer: Result<usize, SalvageError>, size: usize) -> usize
    ensures { result ≡ back_by answer size }
{
    match answer {
        Ok(_) => size,
        Err(_) => 0,
    }
}

// For every input. The table's buffer is as long as the largest table or longer, so 3 never comes (`theorems_salvage::salvaged::enough_room`).
pub fn tell(input: &[u8], table: &mut [u8; 65536], out: &mut [u8; 65536]) -> Told
    ensures { printed result table.new out.new ≡ tell_of input.now table.old out.old }
{
    let mut report = [0u8; REPORT_ROOM];
    let answer = salvage(input, table, &mut report);
    let told = put_told(out, answer, &report);
    Told {
        table: back(answer, input.len()),
        told,
    }
}
