// The tablet's calls for a ramp of two antennas.
ghost use Rattle.std.specs.Prelude.{◌≡◌};
ghost use Rattle.ramp_bytes.specs.Calls.{ruled, one_beast_at, placed, newest_update_at};

use firmware::ramp_calls;

// One beast, 1, or two, 2; and the side that was refused. Refuses: 18; of the left side 1, 12, 13; of the right side 1, 12, 13.
#[unsafe(no_mangle)]
pub extern "C" fn dts_one_beast(
    left: &[u8],
    left_base: u32,
    left_stamp: u32,
    left_next: u16,
    right: &[u8],
    right_base: u32,
    right_stamp: u32,
    right_next: u16,
    window: u32,
    side: &mut u32,
) -> i32
    ensures { ruled result side.new ≡ one_beast_at left.now left_base left_stamp left_next right.now right_base right_stamp right_next window }
{
    ramp_calls::dts_one_beast(
        left,
        left_base,
        left_stamp,
        left_next,
        right,
        right_base,
        right_stamp,
        right_next,
        window,
        side,
    )
}

// The later of two logs' newest Time_Updates: side, offset and length. Refuses: 1 of the left table, 1 of the right one, 19.
#[unsafe(no_mangle)]
pub extern "C" fn dts_newest_update(left: &[u8], right: &[u8], part: &mut [u32; 3]) -> i32
    ensures { placed result part.new ≡ newest_update_at left.now right.now }
{
    ramp_calls::dts_newest_update(left, right, part)
}
