// Row 2 whole: the running report's next record, looked up in the table ("tested only by calls that take the
// table").
ghost use Rattle.std.specs.Prelude.{◌≡◌, true};
ghost use Rattle.table.specs.Table.{sound_b};
ghost use Rattle.rows.specs.Rows.{left_b, running_whole_b};

use clock::state::Report;
use filter::filter::{Filter, matches};
use octets::choice::both;
use record_write::layout::length_of;
use table_look::look::{age_of, held_count, record_at};

// The next record "is held, matches and has bytes unsent".
fn left_ok(t: &[u8], f: Filter, left: Option<(u16, u8)>) -> bool
    requires { sound_b t.now ≡ true }
    ensures { result ≡ left_b t.now f left }
{
    let Some((number, sent)) = left else {
        return true;
    };
    let age = age_of(t, number);
    let among = held_count(t);
    if among <= age {
        return false;
    }
    let unsent = (sent as usize) < length_of(record_at(t, age));
    both(matches(f, among, age, number), unsent)
}

// The running report's part of row 2 that needs the table.
#[tactic(auto, unfolding(crate::specs::Rows::running_whole_b))]
pub(crate) fn running_ok(t: &[u8], running: Option<Report>) -> bool
    requires { sound_b t.now ≡ true }
    ensures { result ≡ running_whole_b t.now running }
{
    let Some(report) = running else {
        return true;
    };
    left_ok(t, report.filter, report.left)
}
