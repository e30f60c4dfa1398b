// One antenna's reader: its clock, its log of eight slots, what it noted of each tag. Then what can happen to it, and
// `lived`, which goes by the event. What the server's calls answer is not looked at: a refusal changes nothing.
ghost use Rattle.std.specs.Prelude.{◌≡◌};
ghost use Rattle.day_play.specs.Reader.{proposal_bytes, started_of, with_clock, set_of, failed_of, read_of, lived_of};

use clock::events::{disconnect, seconds, switches};
use clock::state::Clock;
use codes::dtcp::PROPOSE_OPCODE;
use octets::numbers::bytes4;
use rows::rows::LEAST_OUTPUT;
use table_look::look::next_number;
use table_sound::sound::sound;
use update::fault::fault;
use update::start::start;
use update::time_update::time_update;

// A read of a tag: "stamp" is the reader's Base_Time then, q "its next sequence number".
#[derive(Clone, Copy)]
pub struct Note {
    pub stamp: u32,
    pub q: u16,
}

#[derive(Clone, Copy)]
pub struct Reader {
    pub clock: Clock,
    pub table: [u8; 528],
    // by the tag's place in the day's list
    pub notes: [Option<Note>; 8],
}

#[derive(Clone, Copy)]
pub enum Event {
    // so many seconds pass
    Seconds(u32),
    // the tablet connects: all switches on
    Connect,
    Disconnect,
    // the tablet proposes this Base_Time
    Propose(u32),
    // a time fault
    Fault,
    // the tag at this place is read
    Read(u8),
}

// What the tablet writes to propose a time: epoch 2000, GPS, zone 4, DST 0, accuracy 1, UTC and qualified-local flags.
fn proposal(base: u32) -> [u8; 11]
    ensures { result ≡ proposal_bytes base }
{
    let b = bytes4(base);
    [PROPOSE_OPCODE, 0x43, 0, b[0], b[1], b[2], b[3], 4, 0, 2, 1]
}

// A reader as it comes from its box, started.
pub fn started() -> Reader
    ensures { result ≡ started_of }
{
    let mut table = [0u8; 528];
    let (clock, _) = start(&mut table);
    Reader {
        clock,
        table,
        notes: [None; 8],
    }
}

fn with_clock(r: Reader, clock: Clock) -> Reader
    ensures { result ≡ with_clock r clock }
{
    let table = r.table;
    let notes = r.notes;
    Reader {
        clock,
        table,
        notes,
    }
}

fn set(r: Reader, base: u32) -> Reader
    ensures { result ≡ set_of r base }
{
    let mut clock = r.clock;
    let mut table = r.table;
    let notes = r.notes;
    let write = proposal(base);
    let mut out = [0u8; LEAST_OUTPUT];
    let _ = time_update(&mut clock, &mut table, &write, &mut out);
    Reader {
        clock,
        table,
        notes,
    }
}

fn fail(r: Reader) -> Reader
    ensures { result ≡ failed_of r }
{
    let mut clock = r.clock;
    let mut table = r.table;
    let notes = r.notes;
    let mut out = [0u8; LEAST_OUTPUT];
    let _ = fault(&mut clock, &mut table, &mut out);
    Reader {
        clock,
        table,
        notes,
    }
}

// A tag is noted with the clock's time and the log's next number. A read out of the list, or with a log that isn't
// sound, is not noted.
fn read(r: Reader, place: u8) -> Reader
    ensures { result ≡ read_of r place }
{
    let clock = r.clock;
    let table = r.table;
    let mut notes = r.notes;
    if 8 <= place {
        return r;
    }
    if !sound(&table) {
        return r;
    }
    let q = next_number(&table);
    notes[place as usize] = Some(Note {
        stamp: clock.time.base,
        q,
    });
    Reader {
        clock,
        table,
        notes,
    }
}

// What happens to a reader.
pub fn lived(r: Reader, e: Event) -> Reader
    ensures { result ≡ lived_of r e }
{
    let mut clock = r.clock;
    match e {
        Event::Seconds(n) => {
            let _ = seconds(&mut clock, n);
            with_clock(r, clock)
        }
        Event::Connect => {
            let _ = switches(&mut clock, true, true, true);
            with_clock(r, clock)
        }
        Event::Disconnect => {
            let _ = disconnect(&mut clock);
            with_clock(r, clock)
        }
        Event::Propose(base) => set(r, base),
        Event::Fault => fail(r),
        Event::Read(place) => read(r, place),
    }
}
