// Joining the segments of a report into records (document 01, "RACP and notifications"): the state, the reasons for
// refusing a segment, what a segment that is taken leaves, and the call.
ghost use Rattle.std.specs.Prelude.{◌≡◌, List, [], ℕ, ◌+◌, ◌/◌, ◌%◌, ◌≤◌, leb, eqb, length};
ghost use Rattle.octets.specs.Choice.{pick, both as Choice·both};
ghost use Rattle.octets.specs.Parts.{over};
ghost use Rattle.record.specs.Fields.{most_bytes};
ghost use Rattle.joining.specs.Joining.{joining, empty_joining, ranges_b, body, placed_b, follows_b, standing as Joining·standing, len_after, takes_b, laid_under, Takes, taken_of, join_of, joining_number};

use octets::parts::{clear, put};
use record::kinds::MOST_BYTES;

// No segment yet; a whole record stands there; inside a record. Numbers: any bytes that C holds are a state, and `join` answers those
// outside their ranges too (`ranges_b`).
pub const EMPTY: u8 = 0;

pub const WHOLE: u8 = 1;

pub const INSIDE: u8 = 2;

// "bits 2-7 a counter that .. rises by 1 per notification, 63 then 0"
const LAST_COUNTER: u8 = 63;

// "The record builds up in that state": its first `len` bytes.
#[derive(Clone, Copy)]
pub struct Joining {
    pub phase: u8,
    // of the notification that follows
    pub counter: u8,
    pub len: u8,
    pub bytes: [u8; MOST_BYTES as usize],
}

// No `Result`: a refusal hands a state on too, the empty one, so that nothing is left to do for who is told of it but to go on with it.
#[derive(Clone, Copy)]
pub enum Answer {
    More,
    Whole,
    Refused,
}

#[derive(Clone, Copy)]
pub struct Joined {
    pub answer: Answer,
    pub joining: Joining,
}

// The paper's number for an answer.
pub fn joining_number(a: Answer) -> u8
    ensures { result ≡ joining_number a }
{
    match a {
        Answer::More => 0,
        Answer::Whole => 0,
        Answer::Refused => 10,
    }
}

// "Joining is restarted for each new report." Refuses nothing.
pub fn restart() -> Joining
    ensures { result ≡ empty_joining }
{
    Joining {
        phase: EMPTY,
        counter: 0,
        len: 0,
        bytes: [0u8; MOST_BYTES as usize],
    }
}

// Counter and length by the phase: both 0 while no segment came (EMPTY), else a length of at least 1.
fn begun_ok(phase: u8, counter: u8, len: u8) -> bool
    ensures { result ≡ pick (eqb phase 0) (Choice·both (eqb counter 0) (eqb len 0)) (leb 1 len) }
{
    if phase > EMPTY {
        return 1 <= len;
    }
    if counter > 0 {
        return false;
    }
    len == 0
}

fn ranges_ok(phase: u8, counter: u8, len: u8) -> bool
    ensures { (b : List ℕ) → result ≡ ranges_b (joining phase counter len b) }
{
    if phase > INSIDE {
        return false;
    }
    if counter > LAST_COUNTER {
        return false;
    }
    if len > MOST_BYTES {
        return false;
    }
    begun_ok(phase, counter, len)
}

// "A first bit inside a record, a missing first bit at its start."
fn placed(phase: u8, note: &[u8]) -> bool
    requires { 2 ≤ length note.now }
    ensures { (c l : ℕ) (b : List ℕ) → result ≡ placed_b (joining phase c l b) note.now }
{
    if phase == INSIDE {
        return note[0] % 2 == 0;
    }
    note[0] % 2 == 1
}

// "A counter that doesn't follow"; after a restart any counter is taken.
fn follows(phase: u8, counter: u8, note: &[u8]) -> bool
    requires { 2 ≤ length note.now }
    ensures { (l : ℕ) (b : List ℕ) → result ≡ follows_b (joining phase counter l b) note.now }
{
    if phase == EMPTY {
        return true;
    }
    note[0] / 4 == counter
}

// How many bytes of the record stand there already.
fn standing(phase: u8, len: u8) -> usize
    ensures { (c : ℕ) (b : List ℕ) → result ≡ Joining·standing (joining phase c len b) }
{
    if phase == INSIDE {
        return len as usize;
    }
    0
}

// Is the notification taken? "Joining refuses an empty notification, an empty body, .. over 45 bytes"; the
// tests between stand above, each with the paper's words for it. No test looks at the bytes that stand there,
// so the three numbers are enough, wherever the bytes are kept.
pub fn takes(phase: u8, counter: u8, len: u8, note: &[u8]) -> bool
    ensures { (b : List ℕ) → result ≡ takes_b (joining phase counter len b) note.now }
{
    if note.len() < 2 {
        return false;
    }
    if !ranges_ok(phase, counter, len) {
        return false;
    }
    if !placed(phase, note) {
        return false;
    }
    if !follows(phase, counter, note) {
        return false;
    }
    note.len() - 1 <= MOST_BYTES as usize - standing(phase, len)
}

// A first segment clears the bytes, a later one keeps those it does not write.
fn begin(bytes: &mut [u8], phase: u8)
    requires { length bytes.old ≡ most_bytes }
    ensures { (c l : ℕ) → bytes.new ≡ laid_under (joining phase c l bytes.old) }
{
    if phase == INSIDE {
        return;
    }
    clear(bytes);
}

// A notification's body laid over the record's bytes, after those that stand there already.
pub fn lay_body(bytes: &mut [u8], phase: u8, len: u8, note: &[u8])
    requires { (length bytes.old ≡ most_bytes) × ((1 ≤ length note.now) × (len_after (joining phase 0 len bytes.old) note.now ≤ most_bytes)) }
    ensures { (c : ℕ) → let j = joining phase c len bytes.old in bytes.new ≡ over (laid_under j) (Joining·standing j) (body note.now) }
{
    begin(bytes, phase);
    put(bytes, standing(phase, len), &note[1..]);
}

// How many bytes of the record stand there after the notification.
pub fn len_after(phase: u8, len: u8, note: &[u8]) -> u8
    requires { (1 ≤ length note.now) × (len_after (joining phase 0 len []) note.now ≤ most_bytes) }
    ensures { (c : ℕ) (b : List ℕ) → result ≡ len_after (joining phase c len b) note.now }
{
    (standing(phase, len) + (note.len() - 1)) as u8
}

// "Rises by 1 per notification, 63 then 0."
pub fn counter_after(header: u8) -> u8
    ensures { result ≡ (header / 4 + 1) % 64 }
{
    (header / 4 + 1) % 64
}

// Stands behind the door: the notification is one that joining takes.
fn taken(j: Joining, note: &[u8]) -> Joined
    requires { Takes j note.now }
    ensures { result ≡ taken_of j note.now }
{
    let mut bytes = j.bytes;
    lay_body(&mut bytes, j.phase, j.len, note);
    let counter = counter_after(note[0]);
    let len = len_after(j.phase, j.len, note);
    if note[0] / 2 % 2 == 1 {
        return Joined {
            answer: Answer::Whole,
            joining: Joining {
                phase: WHOLE,
                counter,
                len,
                bytes,
            },
        };
    }
    Joined {
        answer: Answer::More,
        joining: Joining {
            phase: INSIDE,
            counter,
            len,
            bytes,
        },
    }
}

// One notification joined (document 01, "RACP and notifications"). Refuses: 10, an empty notification, an
// empty body, a state outside its ranges, a first bit inside a record or missing at its start, a counter
// that doesn't follow, over 45 bytes; each empties the joining state.
pub fn join(j: Joining, note: &[u8]) -> Joined
    ensures { result ≡ join_of j note.now }
{
    if !takes(j.phase, j.counter, j.len, note) {
        let fresh = restart();
        return Joined {
            answer: Answer::Refused,
            joining: fresh,
        };
    }
    taken(j, note)
}
