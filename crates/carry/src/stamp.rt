// Carrying a stamp (document 01, "Carrying a stamp"): it is moved as the clock was moved by each later record.
ghost use Rattle.std.specs.Prelude.{◌≡◌, true, ◌≤◌, drop, pos, ◌+ℤ◌, ◌-ℤ◌};
ghost use Rattle.std.specs.Int.{w64};
ghost use Rattle.std.proofs.Common.{SFits};
ghost use Rattle.table.specs.Table.{count, held, sound_b};
ghost use Rattle.carry.specs.Stamp.{later_of, moved_by, carried_over, carry_of, carrying_number};

use record::fields::type_of;
use record::kinds::Record;
use table_look::look::{held_count, next_number, record_at};
use table_sound::sound::sound;

// Event_Log_Type of a Time_Fault (document 002, Table 3.12)
const TIME_FAULT: u8 = 0;

// Why a stamp is not carried.
#[derive(Clone, Copy)]
pub enum CarryError {
    TableNotSound,
    NotHeld,
    FaultAmong,
}

// Signed, since a clock may be set back.
fn minus(received: u32, old: u32) -> i64
    ensures { result ≡ pos received -ℤ pos old }
{
    received as i64 - old as i64
}

fn plus(a: i64, b: i64) -> i64
    requires { SFits w64 (a +ℤ b) }
    ensures { result ≡ a +ℤ b }
{
    a + b
}

// What a record adds: "each Time_Update adds received minus old; any other type adds nothing by itself".
fn moved(r: Record) -> i64
    ensures { result ≡ moved_by r }
{
    let Record::TimeUpdate(u) = r else {
        return 0;
    };
    minus(u.base, u.oldbase)
}

// How many records were logged after the stamp was noted: both numbers go round at 65,536.
#[tactic(auto, unfolding(crate::specs::Stamp::later_of))]
fn later(next: u16, q: u16) -> usize
    ensures { result ≡ later_of next q }
{
    next.wrapping_sub(q) as usize
}

// One pass over the held records from an age on, the oldest of them first.
fn carried_over(stamp: u32, t: &[u8], from: usize) -> Result<i64, CarryError>
    requires { (sound_b t.now ≡ true) × (from ≤ count t.now) }
    ensures { result ≡ carried_over (pos stamp) (drop from (held t.now)) }
{
    let among = held_count(t);
    let mut sum = stamp as i64;
    for age in from..among {
        let r = record_at(t, age);
        if type_of(r) == TIME_FAULT {
            return Err(CarryError::FaultAmong);
        }
        sum = plus(sum, moved(r));
    }
    Ok(sum)
}

// Carrying (document 01, "Carrying a stamp"). Refuses: 1, 12, 13. The result always fits: a table holds at most
// 1,023 records, and that many differences of 32-bit values stay within 64 bits (`theorems::bounded`).
pub fn carry(stamp: u32, q: u16, t: &[u8]) -> Result<i64, CarryError>
    ensures { result ≡ carry_of stamp q t.now }
{
    if !sound(t) {
        return Err(CarryError::TableNotSound);
    }
    let m = later(next_number(t), q);
    let among = held_count(t);
    if among < m {
        return Err(CarryError::NotHeld);
    }
    carried_over(stamp, t, among - m)
}

// The paper's number of an answer.
#[tactic(auto, unfolding(crate::specs::Stamp::carrying_number))]
pub fn carrying_number(c: Result<i64, CarryError>) -> u8
    ensures { result ≡ carrying_number c }
{
    match c {
        Ok(_) => 0,
        Err(CarryError::TableNotSound) => 1,
        Err(CarryError::NotHeld) => 12,
        Err(CarryError::FaultAmong) => 13,
    }
}
