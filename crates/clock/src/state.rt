// The clock state (document 01, "Clock state"), by value. Any value of these types is a clock; whether it
// obeys the paper's rules is `obeys::clock_ok`.
ghost use Rattle.std.specs.Prelude.{◌≡◌};
ghost use Rattle.clock.specs.State.{with_running, new_time, all_off, new_reader};

use filter::filter::Filter;
use rules::fields::FIRST_BASE_TIME;

// Zone -128, by its byte.
pub const UNKNOWN_ZONE: u8 = 128;

pub const UNKNOWN_DST: u8 = 255;

pub const UNKNOWN_ACCURACY: u8 = 255;

// In time fault, an update is asked for, epoch 2000 (document 002, Table 3.7).
pub const FAULT_STATUS: u16 = 0x0019;

// The time, the switches, the report that runs: a change writes its part and hands the others on.
#[derive(Clone, Copy)]
pub struct Clock {
    pub time: Time,
    pub switches: Switches,
    pub running: Option<Report>,
}

#[derive(Clone, Copy)]
pub struct Time {
    pub base: u32,
    // as its byte
    pub zone: u8,
    pub dst: u8,
    pub source: u8,
    pub accuracy: u8,
    pub status: u16,
    pub faults: u16,
    // the last accepted UTC-aligned value
    pub aligned: u32,
}

// DTCP indications, RACP indications, log notifications.
#[derive(Clone, Copy)]
pub struct Switches {
    pub dtcp: bool,
    pub racp: bool,
    pub log: bool,
}

#[derive(Clone, Copy)]
pub struct Report {
    pub opcode: u8,
    pub filter: Filter,
    pub counter: u8,
    // the next record's sequence number, and how many of its bytes are sent
    pub left: Option<(u16, u8)>,
}

// The clock with another running report, or none. Refuses nothing.
pub fn with_running(c: Clock, running: Option<Report>) -> Clock
    ensures { result ≡ with_running c running }
{
    Clock { running, ..c }
}

fn new_time() -> Time
    ensures { result ≡ new_time }
{
    Time {
        base: FIRST_BASE_TIME,
        zone: UNKNOWN_ZONE,
        dst: UNKNOWN_DST,
        source: 0,
        accuracy: UNKNOWN_ACCURACY,
        status: FAULT_STATUS,
        faults: 0,
        aligned: FIRST_BASE_TIME,
    }
}

// As a reader starts, and after a disconnect. Refuses nothing.
pub fn all_off() -> Switches
    ensures { result ≡ all_off }
{
    Switches {
        dtcp: false,
        racp: false,
        log: false,
    }
}

// The clock of a new reader. Refuses nothing.
pub fn new_reader() -> Clock
    ensures { result ≡ new_reader }
{
    Clock {
        time: new_time(),
        switches: all_off(),
        running: None,
    }
}
