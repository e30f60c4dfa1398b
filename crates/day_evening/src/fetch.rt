// The evening: the tablet asks a reader for all its records, joins and keeps them in a table of its own, whatever number
// the reader's log begins with, carries the day's stamps by that table, and asks the ramp whether two are of one beast.
ghost use Rattle.std.specs.Prelude.{◌≡◌};
ghost use Rattle.racp_notify.specs.Notify.{said_closes, said_len};
ghost use Rattle.day_evening.specs.Fetch.{stored_in, kept_in, asked_of, segment_in, heard_of, finished_of, fetched_of, sight_of, ruling_of};

use carry::stamp::carry;
use clock::answers::Refusal;
use clock::state::Clock;
use codes::racp::{ALL_RECORDS, REPORT_OPCODE};
use day_play::reader::{Note, Reader};
use day_sheet::sheet::Sight;
use joining::joining::{Answer, Joined, Joining, join, restart};
use keep::keep::{keep, keeping_number};
use racp_access::access::record_access;
use racp_notify::notify::{LEAST_PAYLOAD, Notification, notify};
use ramp::beast::{Beasts, RampError, Seen, one_beast};
use record::kinds::MOST_BYTES;
use rows::rows::LEAST_OUTPUT;
use table_write::start::start;

// In seconds: beasts take seconds from one antenna to the other, three to six on an ordinary day.
const WINDOW: u32 = 10;

// Of eight records each has two segments, and one asking more closes the report.
const ASKINGS: usize = 17;

// What the reader's clock is and what the tablet has, in the course of a report.
#[derive(Clone, Copy)]
pub struct Fetch {
    pub clock: Clock,
    pub joining: Joining,
    pub copy: [u8; 528],
    // no more is asked; the other fields stay in use
    pub closed: bool,
}

// One side of the ramp in the evening, for one tag: the reader's note of it, the clock's Base_Time, and the reader's table as
// the tablet fetched it.
#[derive(Clone, Copy)]
pub struct Side {
    pub note: Option<Note>,
    pub base: u32,
    pub table: [u8; 528],
}

// A whole record goes into the tablet's table. Where keeping refuses it the tablet has no table: zeros are not sound, so
// that nothing more is kept in them and carrying refuses with 1.
fn stored(copy: [u8; 528], joining: Joining) -> [u8; 528]
    ensures { result ≡ stored_in copy joining }
{
    let mut after = copy;
    let bytes = joining.bytes;
    if joining.len > MOST_BYTES {
        return [0u8; 528];
    }
    let len = joining.len as usize;
    let answer = keep(&mut after, &bytes[..len]);
    if keeping_number(answer) > 0 {
        return [0u8; 528];
    }
    after
}

// After a segment that was refused a record would be missing: no table either.
fn kept(copy: [u8; 528], j: Joined) -> [u8; 528]
    ensures { result ≡ kept_in copy j }
{
    let answer = j.answer;
    let joining = j.joining;
    match answer {
        Answer::More => copy,
        Answer::Whole => stored(copy, joining),
        Answer::Refused => [0u8; 528],
    }
}

// The tablet asks for all records (01 01), with a table of its own just started and joining restarted.
fn asked(clock: Clock, table: [u8; 528]) -> Fetch
    ensures { result ≡ asked_of clock table }
{
    let mut copy = [0u8; 528];
    let _ = start(&mut copy);
    let write = [REPORT_OPCODE, ALL_RECORDS];
    let mut out = [0u8; LEAST_OUTPUT];
    let mut after = clock;
    let _ = record_access(&mut after, &table, &write, &mut out);
    Fetch {
        clock: after,
        joining: restart(),
        copy,
        closed: false,
    }
}

// How many bytes of a segment were said, none where the call was refused; or that these bytes close the report.
fn segment_in(said: Result<Notification, Refusal>) -> Option<usize>
    ensures { result ≡ segment_in (said_closes said) (said_len said) }
{
    match said {
        Ok(Notification::Segment(len)) => Some(len),
        Ok(Notification::Closing(_)) => None,
        Err(_) => Some(0),
    }
}

// One notification, with the smallest payload size: P is 20.
fn heard(f: Fetch, table: [u8; 528]) -> Fetch
    ensures { result ≡ heard_of table f }
{
    if f.closed {
        return f;
    }
    let mut clock = f.clock;
    let copy = f.copy;
    let mut out = [0u8; LEAST_OUTPUT];
    let said = notify(&mut clock, &table, LEAST_PAYLOAD, &mut out);
    let Some(len) = segment_in(said) else {
        return Fetch {
            clock,
            joining: f.joining,
            copy,
            closed: true,
        };
    };
    let joined = join(f.joining, &out[..len]);
    let longer = kept(copy, joined);
    Fetch {
        clock,
        joining: joined.joining,
        copy: longer,
        closed: false,
    }
}

// Of a report that did not close the tablet has no table either.
fn finished(f: Fetch) -> [u8; 528]
    ensures { result ≡ finished_of f }
{
    if f.closed {
        return f.copy;
    }
    [0u8; 528]
}

// The tablet's table of a reader's records.
pub fn fetched(r: Reader) -> [u8; 528]
    ensures { result ≡ fetched_of r }
{
    let clock = r.clock;
    let table = r.table;
    let mut f = asked(clock, table);
    for _ in 0..ASKINGS {
        f = heard(f, table);
    }
    finished(f)
}

// A note with its stamp carried by the tablet's table.
pub fn sight(note: Option<Note>, table: [u8; 528]) -> Option<Sight>
    ensures { result ≡ sight_of note table }
{
    let note = note?;
    Some(Sight {
        stamp: note.stamp,
        carried: carry(note.stamp, note.q, &table),
    })
}

// Whether two notes of a tag are of one beast, by the tablet's tables and both clocks' Base_Time at one instant, the
// evening. Where a note is missing there is nothing to compare.
pub fn ruling(left: Side, right: Side) -> Option<Result<Beasts, RampError>>
    ensures { result ≡ ruling_of left.note left.base left.table right.note right.base right.table }
{
    let left_note = left.note?;
    let right_note = right.note?;
    let first = Seen {
        base: left.base,
        stamp: left_note.stamp,
        next: left_note.q,
    };
    let second = Seen {
        base: right.base,
        stamp: right_note.stamp,
        next: right_note.q,
    };
    Some(one_beast(first, &left.table, second, &right.table, WINDOW))
}
