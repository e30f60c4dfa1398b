// The calls: at least 0 where it is done, below 0 minus the refusal's number, which is 3.
ghost use Rattle.std.specs.Prelude.{◌≡◌};
ghost use Rattle.fetch_bytes.specs.Calls.{refused, told as Calls·told, tell_at, mapped, take_at, proposed, propose_at, received_at};

use crate::request::request_bytes;
use crate::told::{range_of, told_at, told_numbers};
use fetch_map::count::received;
use fetch_map::refusal::Refusal;
use fetch_map::take::take_in;
use fetch_map::tell::tell;
use fetch_propose::propose::propose;

fn refused(why: Refusal) -> i32
    ensures { result ≡ refused why }
{
    match why {
        Refusal::WrongWords => -3,
    }
}

// What the reader holds is told. Refuses: 3.
pub fn tell_at(map: &mut [u64], told: &mut [u16; 3], any: u8, oldest: u16, newest: u16) -> i32
    ensures { Calls·told result map.new told.new ≡ tell_at map.old told.old any oldest newest }
{
    let range = range_of(any, oldest, newest);
    match tell(map, range) {
        Ok(()) => {
            *told = told_numbers(range);
            0
        }
        Err(why) => refused(why),
    }
}

// The request for the first run that is missing: 7, its bytes, or 0 where nothing is. Refuses: 3.
pub fn propose_at(map: &[u64], told: &[u16; 3], request: &mut [u8; 7]) -> i32
    ensures { proposed result request.new ≡ propose_at map.now told.now request.old }
{
    match propose(map, told_at(*told)) {
        Ok(Some(run)) => {
            *request = request_bytes(run.first, run.last);
            7
        }
        Ok(None) => 0,
        Err(why) => refused(why),
    }
}

// A record's number is taken in. Refuses: 3.
pub fn take_at(map: &mut [u64], told: &[u16; 3], number: u16) -> i32
    ensures { mapped result map.new ≡ take_at map.old told.now number }
{
    match take_in(map, told_at(*told), number) {
        Ok(()) => 0,
        Err(why) => refused(why),
    }
}

// How many numbers are received. Refuses: 3.
pub fn received_at(map: &[u64]) -> i32
    ensures { result ≡ received_at map.now }
{
    match received(map) {
        Ok(n) => n as i32,
        Err(why) => refused(why),
    }
}
