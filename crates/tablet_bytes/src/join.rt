// Joining in the lent state: the record builds up in the bytes that the caller keeps, and only the part that a
// notification brings is copied.
ghost use Rattle.std.specs.Prelude.{◌≡◌, ◌∷◌, length, drop};
ghost use Rattle.joining.specs.Joining.{Takes, taken_of, join_of};
ghost use Rattle.state_bytes.specs.JoiningState.{joining_bytes, joining_in};
ghost use Rattle.tablet_bytes.specs.Calls.{joined, joined_bytes};

use joining::joining::{INSIDE, WHOLE, counter_after, lay_body, len_after, takes};
use octets::parts::clear;

// The state's length: phase, next counter, length, then the record's 45 bytes.
pub const JOINING_BYTES: usize = 48;

// Where the record's bytes begin.
const RECORD_AT: usize = 3;

// The three numbers before the record's bytes.
fn set_head(s: &mut [u8], phase: u8, counter: u8, len: u8)
    requires { length s.old ≡ joining_bytes }
    ensures { s.new ≡ phase ∷ counter ∷ len ∷ drop 3 s.old }
{
    s[0] = phase;
    s[1] = counter;
    s[2] = len;
}

// Stands behind the door: the notification is one that joining takes. The body first, since it is laid by the
// numbers that stand there before.
fn take_in(s: &mut [u8], note: &[u8]) -> i32
    requires { (length s.old ≡ joining_bytes) × Takes (joining_in s.old) note.now }
    ensures { joined result s.new ≡ joined_bytes (taken_of (joining_in s.old) note.now) }
{
    let phase = s[0];
    let before = s[2];
    lay_body(&mut s[RECORD_AT..], phase, before, note);
    let counter = counter_after(note[0]);
    let len = len_after(phase, before, note);
    if note[0] / 2 % 2 == 1 {
        set_head(s, WHOLE, counter, len);
        return len as i32;
    }
    set_head(s, INSIDE, counter, len);
    0
}

// One notification joined in a state of 48 bytes. Refuses: 10; then every byte lent becomes 0. Answers 0 where
// more is to come, else the length of the whole record that stands there.
pub fn join_state(s: &mut [u8], note: &[u8]) -> i32
    requires { length s.old ≡ joining_bytes }
    ensures { joined result s.new ≡ joined_bytes (join_of (joining_in s.old) note.now) }
{
    if !takes(s[0], s[1], s[2], note) {
        clear(s);
        return -10;
    }
    take_in(s, note)
}
