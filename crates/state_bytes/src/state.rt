// The clock state as 32 bytes, little endian. A state has one encoding, with its unused fields 0.
ghost use Rattle.std.specs.Prelude.{◌≡◌, ◌≤◌, length};
ghost use Rattle.octets.specs.Parts.{same_b};
ghost use Rattle.state_bytes.specs.State.{weight_if, switches_of, bounds, bounds_of, unsent_of, fields_of, image_of, filter_in, left_in, running_in, clock_in, no_clock, clock_of};

use clock::state::{Clock, Report, Switches, Time, new_reader};
use codes::racp::{ALL_RECORDS, AT_LEAST, AT_MOST, FIRST_RECORD, LAST_RECORD, WITHIN_RANGE};
use filter::filter::Filter;
use octets::numbers::{bytes2, bytes4, get16, get32};

// The image's length.
pub const STATE_BYTES: usize = 32;

// The three structs below have a report's parts as the image's bytes have them, which C holds: numbers, and 0 for what there is not.
// A filter's operator and its values.
#[derive(Clone, Copy)]
pub struct Bounds {
    pub operator: u8,
    pub minimum: u16,
    pub maximum: u16,
}

// What is left of a report: 1 with the next record's number and its bytes sent, or zeros.
#[derive(Clone, Copy)]
pub struct Unsent {
    pub left: u8,
    pub next: u16,
    pub sent: u8,
}

// The running report as bytes 17 to 27 have it; zeros where none is running.
#[derive(Clone, Copy)]
pub struct Fields {
    pub opcode: u8,
    pub bounds: Bounds,
    pub counter: u8,
    pub unsent: Unsent,
}

fn weight_if(on: bool, weight: u8) -> u8
    ensures { (result ≡ weight_if on weight) × (result ≤ weight) }
{
    if on { weight } else { 0 }
}

// Bit 0 DTCP indications, bit 1 RACP indications, bit 2 log notifications.
fn switches_of(dtcp: bool, racp: bool, log: bool) -> u8
    ensures { result ≡ switches_of dtcp racp log }
{
    weight_if(dtcp, 1) + weight_if(racp, 2) + weight_if(log, 4)
}

fn bounds_at(operator: u8, minimum: u16, maximum: u16) -> Bounds
    ensures { result ≡ bounds operator minimum maximum }
{
    Bounds {
        operator,
        minimum,
        maximum,
    }
}

fn bounds_of(f: Filter) -> Bounds
    ensures { result ≡ bounds_of f }
{
    match f {
        Filter::All => bounds_at(ALL_RECORDS, 0, 0),
        Filter::AtMost(max) => bounds_at(AT_MOST, 0, max),
        Filter::AtLeast(min) => bounds_at(AT_LEAST, min, 0),
        Filter::Range(min, max) => bounds_at(WITHIN_RANGE, min, max),
        Filter::First => bounds_at(FIRST_RECORD, 0, 0),
        Filter::Last => bounds_at(LAST_RECORD, 0, 0),
    }
}

#[tactic(auto, unfolding(crate::specs::State::unsent_of))]
fn unsent_of(left: Option<(u16, u8)>) -> Unsent
    ensures { result ≡ unsent_of left }
{
    match left {
        None => Unsent {
            left: 0,
            next: 0,
            sent: 0,
        },
        Some((next, sent)) => Unsent {
            left: 1,
            next,
            sent,
        },
    }
}

fn fields_of(running: Option<Report>) -> Fields
    ensures { result ≡ fields_of running }
{
    match running {
        None => Fields {
            opcode: 0,
            bounds: bounds_at(0, 0, 0),
            counter: 0,
            unsent: unsent_of(None),
        },
        Some(report) => {
            let filter = report.filter;
            let left = report.left;
            Fields {
                opcode: report.opcode,
                bounds: bounds_of(filter),
                counter: report.counter,
                unsent: unsent_of(left),
            }
        }
    }
}

// The 32 bytes of a clock. Refuses nothing.
pub fn image_of(c: Clock) -> [u8; 32]
    ensures { result ≡ image_of c }
{
    let running = c.running;
    let f = fields_of(running);
    let b = f.bounds;
    let u = f.unsent;
    let base = bytes4(c.time.base);
    let status = bytes2(c.time.status);
    let faults = bytes2(c.time.faults);
    let aligned = bytes4(c.time.aligned);
    let minimum = bytes2(b.minimum);
    let maximum = bytes2(b.maximum);
    let next = bytes2(u.next);
    [
        base[0],
        base[1],
        base[2],
        base[3],
        c.time.zone,
        c.time.dst,
        c.time.source,
        c.time.accuracy,
        status[0],
        status[1],
        faults[0],
        faults[1],
        aligned[0],
        aligned[1],
        aligned[2],
        aligned[3],
        switches_of(c.switches.dtcp, c.switches.racp, c.switches.log),
        f.opcode,
        b.operator,
        minimum[0],
        minimum[1],
        maximum[0],
        maximum[1],
        f.counter,
        u.left,
        next[0],
        next[1],
        u.sent,
        0,
        0,
        0,
        0,
    ]
}

// An operator outside 1 to 6 is read as All, which is written back as 1: such bytes are no image.
fn filter_in(operator: u8, minimum: u16, maximum: u16) -> Filter
    ensures { result ≡ filter_in operator minimum maximum }
{
    match operator {
        AT_MOST => Filter::AtMost(maximum),
        AT_LEAST => Filter::AtLeast(minimum),
        WITHIN_RANGE => Filter::Range(minimum, maximum),
        FIRST_RECORD => Filter::First,
        LAST_RECORD => Filter::Last,
        _ => Filter::All,
    }
}

fn left_in(left: u8, next: u16, sent: u8) -> Option<(u16, u8)>
    ensures { result ≡ left_in left next sent }
{
    match left {
        1 => Some((next, sent)),
        _ => None,
    }
}

fn running_in(s: &[u8]) -> Option<Report>
    requires { length s.now ≡ 32 }
    ensures { result ≡ running_in s.now }
{
    let opcode = s[17];
    if opcode == 0 {
        return None;
    }
    Some(Report {
        opcode,
        filter: filter_in(s[18], get16(s, 19), get16(s, 21)),
        counter: s[23],
        left: left_in(s[24], get16(s, 25), s[27]),
    })
}

fn clock_in(s: &[u8]) -> Clock
    requires { length s.now ≡ 32 }
    ensures { result ≡ clock_in s.now }
{
    let bits = s[16];
    let time = Time {
        base: get32(s, 0),
        zone: s[4],
        dst: s[5],
        source: s[6],
        accuracy: s[7],
        status: get16(s, 8),
        faults: get16(s, 10),
        aligned: get32(s, 12),
    };
    let switches = Switches {
        dtcp: bits % 2 == 1,
        racp: bits / 2 % 2 == 1,
        log: bits / 4 % 2 == 1,
    };
    Clock {
        time,
        switches,
        running: running_in(s),
    }
}

// Byte by byte, in line: most bytes of an image are just those that it was made of, which the compiler sees. `==` of the two is a call
// that reads both anew, and with it setting the switches took half as long again.
fn same(a: &[u8], b: &[u8]) -> bool
    requires { length a.now ≡ length b.now }
    ensures { result ≡ same_b a.now b.now }
{
    for i in 0..a.len() {
        if a[i] != b[i] {
            return false;
        }
    }
    true
}

// What bytes that are no image stand for: a new reader whose Base_Time is 0, which breaks a rule.
fn no_clock() -> Clock
    ensures { result ≡ no_clock }
{
    let mut c = new_reader();
    c.time.base = 0;
    c
}

// The clock that an image stands for. Bytes that are not what that clock is written as, and any other
// length than 32, are no image: they stand for a clock that breaks a rule, so that every call refuses it.
pub fn clock_of(s: &[u8]) -> Clock
    ensures { result ≡ clock_of s.now }
{
    if s.len() != STATE_BYTES {
        return no_clock();
    }
    let c = clock_in(s);
    let image = image_of(c);
    if !same(s, &image) {
        return no_clock();
    }
    c
}
