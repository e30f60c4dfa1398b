// One step of a run over the logs of a season (change request E12): from where the run stands and an entry, which is a size
// with its table, to the lines, where the run stands then, and whether it goes on.
ghost use Rattle.std.specs.Prelude.{◌≡◌, true, ◌+◌, ◌≤◌};
ghost use Rattle.octets.specs.Choice.{pick};
ghost use Rattle.table.specs.Table.{sound_b};
ghost use Rattle.season_step.specs.Step.{most_tables, beginning, table_bytes, whole_b, taken, passed_over, step_of, outcome, stepped};

use octets::numbers::get32;
use season_figures::figures::{Figures, figures_in, no_figures, together};
use season_text::lines::{put_ended, put_refused, put_table, put_total};
use std::ops::ControlFlow;
use table::header::size_ok;
use table_sound::sound::sound;

// "Its size in four bytes", and "a table after the 65,535th ends the run".
pub const SIZE_BYTES: usize = 4;

const MOST_TABLES: u32 = 65535;

// The room that a step's lines need at most: 178 bytes.
pub const LINES_BYTES: usize = 256;

// Where a run stands: the position of the next entry, and what the tables before it come to.
#[derive(Clone, Copy)]
pub struct Run {
    pub position: u32,
    pub totals: Figures,
}

// How far a step brings a run: `len` bytes of the lent buffer are its lines, and the run goes on from where it stands then, or
// breaks off there. A length, not the lines as a slice: of the lent buffer all is promised, the bytes after the lines too (`outcome`).
#[derive(Clone, Copy)]
pub struct Progress {
    pub len: usize,
    pub run: ControlFlow<Run, Run>,
}

// A run before its first entry.
pub fn begun() -> Run
    ensures { result ≡ beginning }
{
    Run {
        position: 1,
        totals: no_figures(),
    }
}

// How many bytes of a table are to be read after an entry's first four, of which the input may have had fewer.
pub fn table_bytes(head: &[u8]) -> usize
    ensures { result ≡ table_bytes head.now }
{
    if head.len() < SIZE_BYTES {
        return 0;
    }
    let size = get32(head, 0) as usize;
    if size_ok(size) { size } else { 0 }
}

// A permitted size, and a table of that many bytes.
fn whole(entry: &[u8]) -> bool
    ensures { result ≡ whole_b entry.now }
{
    if entry.len() < SIZE_BYTES {
        return false;
    }
    let size = get32(entry, 0) as usize;
    size_ok(size) && entry.len() == SIZE_BYTES + size
}

fn table_step(run: Run, table: &[u8], out: &mut [u8; LINES_BYTES]) -> Progress
    requires { run.position ≤ most_tables }
    ensures { outcome result out.new ≡ stepped out.old (pick (sound_b table.now) (taken run.position run.totals table.now) (passed_over run.position run.totals)) }
{
    let position = run.position + 1;
    if !sound(table) {
        return Progress {
            len: put_refused(out, run.position),
            run: ControlFlow::Continue(Run { position, ..run }),
        };
    }
    let figures = figures_in(table);
    Progress {
        len: put_table(out, run.position, figures),
        run: ControlFlow::Continue(Run {
            position,
            totals: together(run.totals, figures),
        }),
    }
}

// One step, whatever the bytes. An entry of no bytes says that the input ended after the table before.
pub fn step(run: Run, entry: &[u8], out: &mut [u8; LINES_BYTES]) -> Progress
    ensures { outcome result out.new ≡ stepped out.old (step_of run.position run.totals entry.now) }
{
    if entry.len() == 0 {
        return Progress {
            len: put_total(out, 0, run.totals),
            run: ControlFlow::Break(run),
        };
    }
    if run.position > MOST_TABLES || !whole(entry) {
        let ended = put_ended(out, run.position);
        return Progress {
            len: put_total(out, ended, run.totals),
            run: ControlFlow::Break(run),
        };
    }
    table_step(run, &entry[SIZE_BYTES..], out)
}
