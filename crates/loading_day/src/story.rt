// The story: an ordinary loading day and what came before it, as data, each happening written as one number (written.rt).
// Both clocks run all day, so seconds pass at both antennas. The time fault comes early: of the reader that it befalls no
// stamp taken before it can be carried.
ghost use Rattle.std.specs.Prelude.{◌≡◌};
ghost use Rattle.loading_day.specs.Story.{the_day, the_tags};
ghost use Rattle.loading_day.specs.Printed.{Printed};
ghost use Rattle.loading_day.specs.Written.{happenings_of};

use crate::written::{
    BOTH, CONNECT, DISCONNECT, FAULT, LEFT, PROPOSE, READ, RIGHT, SECONDS, happening,
};
use day_play::play::Happening;

const DAY: [u64; 78] = [
    // The right reader has been on the ramp since summer, the left one is new. On eight Mondays at six the tablet set the
    // right clock, which gains three seconds a week: its log of eight slots is full, and the day's records overwrite the
    // oldest. 10 August:
    RIGHT + CONNECT,
    RIGHT + PROPOSE + 839656800,
    RIGHT + DISCONNECT,
    RIGHT + SECONDS + 604803,
    // 17 August:
    RIGHT + CONNECT,
    RIGHT + PROPOSE + 840261600,
    RIGHT + DISCONNECT,
    RIGHT + SECONDS + 604803,
    // 24 August:
    RIGHT + CONNECT,
    RIGHT + PROPOSE + 840866400,
    RIGHT + DISCONNECT,
    RIGHT + SECONDS + 604803,
    // 31 August:
    RIGHT + CONNECT,
    RIGHT + PROPOSE + 841471200,
    RIGHT + DISCONNECT,
    RIGHT + SECONDS + 604803,
    // 7 September:
    RIGHT + CONNECT,
    RIGHT + PROPOSE + 842076000,
    RIGHT + DISCONNECT,
    RIGHT + SECONDS + 604803,
    // 14 September:
    RIGHT + CONNECT,
    RIGHT + PROPOSE + 842680800,
    RIGHT + DISCONNECT,
    RIGHT + SECONDS + 604803,
    // 21 September:
    RIGHT + CONNECT,
    RIGHT + PROPOSE + 843285600,
    RIGHT + DISCONNECT,
    RIGHT + SECONDS + 604803,
    // 28 September:
    RIGHT + CONNECT,
    RIGHT + PROPOSE + 843890400,
    RIGHT + DISCONNECT,
    RIGHT + SECONDS + 604803,
    // 5 October, six o'clock: the tablet in the cab sets both clocks. It is ten minutes fast when it sets the left one.
    BOTH + CONNECT,
    LEFT + PROPOSE + 844495800,
    RIGHT + PROPOSE + 844495200,
    BOTH + DISCONNECT,
    // Half past six: the first beast.
    BOTH + SECONDS + 1800,
    LEFT + READ + 0,
    BOTH + SECONDS + 3,
    RIGHT + READ + 0,
    // The right reader loses its time, and a beast passes before it is set again.
    BOTH + SECONDS + 57,
    RIGHT + FAULT,
    BOTH + SECONDS + 20,
    LEFT + READ + 1,
    BOTH + SECONDS + 4,
    RIGHT + READ + 1,
    BOTH + SECONDS + 36,
    RIGHT + CONNECT,
    RIGHT + PROPOSE + 844497120,
    RIGHT + DISCONNECT,
    // Two more.
    BOTH + SECONDS + 30,
    LEFT + READ + 2,
    BOTH + SECONDS + 5,
    RIGHT + READ + 2,
    BOTH + SECONDS + 55,
    LEFT + READ + 3,
    BOTH + SECONDS + 4,
    RIGHT + READ + 3,
    // The left clock is set back by ten minutes while a beast stands between the antennas.
    BOTH + SECONDS + 26,
    LEFT + READ + 4,
    BOTH + SECONDS + 2,
    LEFT + CONNECT,
    LEFT + PROPOSE + 844497242,
    LEFT + DISCONNECT,
    BOTH + SECONDS + 3,
    RIGHT + READ + 4,
    // The rest: one that the right antenna misses, and one that goes backwards.
    BOTH + SECONDS + 55,
    LEFT + READ + 5,
    BOTH + SECONDS + 4,
    RIGHT + READ + 5,
    BOTH + SECONDS + 56,
    LEFT + READ + 6,
    BOTH + SECONDS + 60,
    RIGHT + READ + 7,
    BOTH + SECONDS + 6,
    LEFT + READ + 7,
    // Half past five in the evening: the tablet comes for the logs.
    BOTH + SECONDS + 39174,
    BOTH + CONNECT,
];

// The beasts' ear tags, by their places in the list.
const TAGS: [u16; 8] = [4101, 4102, 4103, 4104, 4105, 4106, 4107, 4108];

// The day as it is written.
fn numbers() -> [u64; 78]
    ensures { happenings_of result ≡ the_day }
{
    DAY
}

// The day read from its numbers, one after the other.
pub fn day() -> [Happening; 78]
    ensures { result ≡ the_day }
{
    numbers().map(happening)
}

pub fn tags() -> [u16; 8]
    ensures { result ≡ the_tags }
{
    TAGS
}

// The story's sheet, computed on these very definitions.
pub fn printed()
    ensures { Printed }
{}
