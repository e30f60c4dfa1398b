ghost use Rattle.std.specs.Prelude.{None, Some};
// A notification of the running report (document 01, "RACP and notifications"): rows 1, 2, 3 and 8, then a segment of
// its next record, or the closing response.
ghost use Rattle.std.specs.Prelude.{◌≡◌, true, ◌≤◌, ◌<◌, leb, length};
ghost use Rattle.octets.specs.Choice.{pick};
ghost use Rattle.octets.specs.Parts.{over};
ghost use Rattle.record_write.specs.Layout.{bytes_of};
ghost use Rattle.table.specs.Table.{sound_b};
ghost use Rattle.clock.specs.State.{with_running};
ghost use Rattle.rows.specs.Rows.{left_b};
ghost use Rattle.racp_notify.specs.Notify.{room_b, header_of, counter_after, segment_of, left_after, closing_of, said, said_of, notified_by, notice, noticed, notify_of};
ghost use Rattle.racp_notify.specs.Notify.{bit as Notify·bit};

use clock::answers::Refusal;
use clock::state::{Clock, Report, with_running};
use codes::racp::{COMBINED_OPCODE, COMBINED_RESPONSE, REPORT_OPCODE};
use codes::response::{Code, code_bytes, count_bytes};
use filter::filter::Filter;
use octets::choice::both;
use octets::parts::put;
use racp_access::report::left_from;
use record::kinds::Record;
use record_write::layout::{length_of, write};
use rows::rows::table_rows;
use table_look::look::{age_of, record_at};
use table_look::matching::count_matching;

// What a notification is: a segment of the report's next record, or its closing response. So many bytes of the output are it.
#[derive(Clone, Copy)]
pub enum Notification {
    Segment(usize),
    Closing(usize),
}

// "Payload size P outside 20 to 244."
pub const LEAST_PAYLOAD: u32 = 20;

pub const GREATEST_PAYLOAD: u32 = 244;

// Row 3: a payload size within these, and room for it.
fn room(p: u32, out: usize) -> bool
    ensures { result ≡ room_b p out }
{
    both(
        both(LEAST_PAYLOAD <= p, p <= GREATEST_PAYLOAD),
        p as usize <= out,
    )
}

fn bit(b: bool) -> u8
    ensures { (result ≡ Notify·bit b) × (result ≤ 1) }
{
    b as u8
}

// "bit 0 first, bit 1 last, bits 2-7 a counter"
fn header(first: bool, last: bool, counter: u8) -> u8
    requires { counter ≤ 63 }
    ensures { result ≡ header_of first last counter }
{
    bit(first) + 2 * bit(last) + 4 * counter
}

// "rises by 1 per notification, 63 then 0"
fn counter_after(k: u8) -> u8
    requires { k ≤ 63 }
    ensures { result ≡ counter_after k }
{
    (k + 1) % 64
}

// Where a body that may reach so far ends: no further than the record.
fn body_end(len: usize, reach: usize) -> usize
    ensures { result ≡ pick (leb len reach) len reach }
{
    len.min(reach)
}

// "Each is cut into bodies of P-1 bytes, the last of 1 to P-1": the header and the next `q` bytes, or as many
// as are left, at the output's start. How many bytes it is.
fn put_segment(out: &mut [u8], q: usize, sent: u8, counter: u8, r: Record) -> usize
    requires { (q < length out.old) × (q ≤ 243) × (counter ≤ 63) × (sent < length (bytes_of r)) }
    ensures { (result ≡ length (segment_of q sent counter (bytes_of r))) × (out.new ≡ over out.old 0 (segment_of q sent counter (bytes_of r))) }
{
    let written = write(r);
    let bytes = written.bytes;
    let len = written.len;
    let from = sent as usize;
    let reach = from + q;
    let head = [header(from == 0, len <= reach, counter)];
    let end = body_end(len, reach);
    put(out, 0, &head);
    put(out, 1, &bytes[from..end]);
    1 + end - from
}

// What is left after it: the record's other bytes, or the next held record that matches.
fn left_after(t: &[u8], f: Filter, q: usize, number: u16, sent: u8, r: Record) -> Option<(u16, u8)>
    requires { (sound_b t.now ≡ true) × (q ≤ 243) }
    ensures { result ≡ left_after f t.now q number sent (bytes_of r) }
{
    let reach = sent as usize + q;
    if length_of(r) <= reach {
        return left_from(t, f, age_of(t, number) + 1);
    }
    Some((number, reach as u8))
}

// The closing response: of a Combined Report the count of matching held records, else Success.
fn closing(t: &[u8], r: Report) -> [u8; 4]
    requires { sound_b t.now ≡ true }
    ensures { result ≡ closing_of t.now r }
{
    let f = r.filter;
    if r.opcode == COMBINED_OPCODE {
        return count_bytes(COMBINED_RESPONSE, count_matching(t, f));
    }
    code_bytes(REPORT_OPCODE, Code::Success)
}

// Nothing is left: the report ends.
fn close(c: &mut Clock, t: &[u8], r: Report, out: &mut [u8]) -> Notification
    requires { (sound_b t.now ≡ true) × (4 ≤ length out.old) }
    ensures { notice (notified_by (Ok result) c.new) out.new ≡ noticed (said true (with_running c.old None) (closing_of t.now r)) out.old }
{
    let response = closing(t, r);
    put(out, 0, &response);
    c.running = None;
    Notification::Closing(4)
}

// A segment of the next record, and what is left after it.
fn send(
    c: &mut Clock,
    t: &[u8],
    q: usize,
    r: Report,
    number: u16,
    sent: u8,
    out: &mut [u8],
) -> Notification
    requires { (sound_b t.now ≡ true) × (q < length out.old) × (q ≤ 243) × (r.counter ≤ 63) × (left_b t.now r.filter (Some (number, sent)) ≡ true) }
    ensures { notice (notified_by (Ok result) c.new) out.new ≡ noticed (said_of c.old t.now q r (Some (number, sent))) out.old }
{
    let next = record_at(t, age_of(t, number));
    let filter = r.filter;
    let left = left_after(t, filter, q, number, sent, next);
    let after = Report {
        opcode: r.opcode,
        filter,
        counter: counter_after(r.counter),
        left,
    };
    let len = put_segment(out, q, sent, r.counter, next);
    c.running = Some(after);
    Notification::Segment(len)
}

// What is said of a running report, with bodies of up to `q` bytes.
fn say(c: &mut Clock, t: &[u8], q: usize, r: Report, out: &mut [u8]) -> Notification
    requires { (sound_b t.now ≡ true) × (q < length out.old) × (19 ≤ q) × (q ≤ 243) × (r.counter ≤ 63) × (left_b t.now r.filter r.left ≡ true) }
    ensures { notice (notified_by (Ok result) c.new) out.new ≡ noticed (said_of c.old t.now q r r.left) out.old }
{
    let Some((number, sent)) = r.left else {
        return close(c, t, r, out);
    };
    send(c, t, q, r, number, sent, out)
}

// Refuses: 1, 2 whole, 3, 8. The switches do not hold a notification back. Done, the bytes are a segment of
// the report's next record or its closing response.
pub fn notify(c: &mut Clock, t: &[u8], p: u32, out: &mut [u8]) -> Result<Notification, Refusal>
    ensures { notice (notified_by result c.new) out.new ≡ notify_of c.old t.now p out.old }
{
    table_rows(*c, t, room(p, out.len()))?;
    let Some(report) = c.running else {
        return Err(Refusal::NothingRunning);
    };
    Ok(say(c, t, p as usize - 1, report, out))
}
