// The ATT error that goes with a refusal.
ghost use Rattle.std.specs.Prelude.{◌≡◌};
ghost use Rattle.codes.specs.Att.{att_error_at};

use firmware::errors;

// By the paper's number: 0x0D, 0xFD, 0xFE for 4, 5, 6; 0 for a number only. Refuses nothing.
#[unsafe(no_mangle)]
pub extern "C" fn dts_att_error(number: u32) -> i32
    ensures { result ≡ att_error_at number }
{
    errors::dts_att_error(number)
}
