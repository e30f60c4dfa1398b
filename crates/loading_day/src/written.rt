// A happening written as one number, `LEFT + READ + 3`: an antenna, an event and the event's own number, added up.
// A day is then one row of numbers and proved as one step; in a row of structs each part of each struct is a step.
ghost use Rattle.std.specs.Prelude.{◌≡◌};
ghost use Rattle.loading_day.specs.Written.{antenna_of, event_of, happening_of};

use day_play::play::{Antenna, Happening};
use day_play::reader::Event;

// An event's own number is less than EVENT; an event's place times EVENT is less than ANTENNA.
const EVENT: u64 = 4294967296;

const ANTENNA: u64 = 8 * EVENT;

pub const LEFT: u64 = ANTENNA;

pub const RIGHT: u64 = 2 * ANTENNA;

pub const BOTH: u64 = 3 * ANTENNA;

pub const SECONDS: u64 = EVENT;

pub const CONNECT: u64 = 2 * EVENT;

pub const DISCONNECT: u64 = 3 * EVENT;

pub const PROPOSE: u64 = 4 * EVENT;

pub const FAULT: u64 = 5 * EVENT;

pub const READ: u64 = 6 * EVENT;

fn antenna(place: u64) -> Antenna
    ensures { result ≡ antenna_of place }
{
    match place {
        1 => Antenna::Left,
        2 => Antenna::Right,
        _ => Antenna::Both,
    }
}

fn event(place: u64, n: u32) -> Event
    ensures { result ≡ event_of place n }
{
    match place {
        1 => Event::Seconds(n),
        2 => Event::Connect,
        3 => Event::Disconnect,
        4 => Event::Propose(n),
        5 => Event::Fault,
        _ => Event::Read((n % 256) as u8),
    }
}

pub fn happening(number: u64) -> Happening
    ensures { result ≡ happening_of number }
{
    Happening {
        at: antenna(number / ANTENNA),
        event: event(number / EVENT % 8, (number % EVENT) as u32),
    }
}
