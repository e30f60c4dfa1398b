// The tablet's calls: joining, reading, keeping, carrying.
ghost use Rattle.std.specs.Prelude.{◌≡◌};
ghost use Rattle.carry.specs.Stamp.{carrying_number};
ghost use Rattle.keep.specs.Keep.{keeping_number};
ghost use Rattle.state_bytes.specs.Results.{refusal};
ghost use Rattle.tablet_bytes.specs.Calls.{joined, join_at, reading, read_at, kept_bytes, keep_at, carrying, carry_at};

use crate::join::{JOINING_BYTES, join_state};
use crate::read::{fault_fields, update_fields};
use carry::stamp::{CarryError, carry};
use keep::keep::{KeepError, keep};
use octets::parts::clear;
use record_read::reading::{fault_formed, update_formed};
use record_write::places::{FAULT_BYTES, UPDATE_BYTES};

// One notification joined. Refuses: 10, another length than 48 bytes too; then every byte lent becomes 0.
// Answers 0 where more is to come, else the length of the whole record that stands there.
pub fn join_at(joining: &mut [u8], notification: &[u8]) -> i32
    ensures { joined result joining.new ≡ join_at joining.old notification.now }
{
    if joining.len() != JOINING_BYTES {
        clear(joining);
        return -10;
    }
    join_state(joining, notification)
}

// The record that bytes are. Refuses: 11. The length tells which type it must be, and both test and numbers are of the bytes
// where they stand.
pub fn read_at(bytes: &[u8], fields: &mut [u32; 11]) -> i32
    ensures { reading result fields.new ≡ read_at bytes.now fields.old }
{
    if bytes.len() == UPDATE_BYTES {
        if !update_formed(bytes) {
            return -11;
        }
        *fields = update_fields(bytes);
        return 0;
    }
    if bytes.len() != FAULT_BYTES {
        return -11;
    }
    if !fault_formed(bytes) {
        return -11;
    }
    *fields = fault_fields(bytes);
    0
}

#[tactic(auto, unfolding(keep::specs::Keep::keeping_number))]
fn keep_refusal(why: KeepError) -> i32
    ensures { result ≡ refusal (keeping_number (Err why)) }
{
    match why {
        KeepError::TableNotSound => -1,
        KeepError::NotARecord => -11,
        KeepError::DoesNotFollow => -23,
    }
}

// A record's bytes kept in the tablet's own copy of a log. Refuses: 1, 11, 23.
pub fn keep_at(table: &mut [u8], bytes: &[u8]) -> i32
    ensures { kept_bytes result table.new ≡ keep_at table.old bytes.now }
{
    match keep(table, bytes) {
        Ok(()) => 0,
        Err(why) => keep_refusal(why),
    }
}

#[tactic(auto, unfolding(carry::specs::Stamp::carrying_number))]
fn carry_refusal(why: CarryError) -> i32
    ensures { result ≡ refusal (carrying_number (Err why)) }
{
    match why {
        CarryError::TableNotSound => -1,
        CarryError::NotHeld => -12,
        CarryError::FaultAmong => -13,
    }
}

// A stamp carried over the records logged after it. Refuses: 1, 12, 13.
pub fn carry_at(stamp: u32, q: u16, table: &[u8], carried: &mut i64) -> i32
    ensures { carrying result carried.new ≡ carry_at stamp q table.now carried.old }
{
    match carry(stamp, q, table) {
        Ok(to) => {
            *carried = to;
            0
        }
        Err(why) => carry_refusal(why),
    }
}
