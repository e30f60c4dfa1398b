// The ATT error that goes with a refusal (document 01, "Refusal numbers", the column "Answer").
ghost use Rattle.std.specs.Prelude.{◌≡◌};
ghost use Rattle.codes.specs.Att.{att_error_at};

// By the paper's number: 0x0D, 0xFD, 0xFE for 4, 5, 6; 0 for a number only. Refuses nothing. No enum of them: C hands the number over,
// and passes the error on as it is.
#[tactic(auto, unfolding(crate::specs::Att::att_error_at))]
pub fn att_error(number: u32) -> i32
    ensures { result ≡ att_error_at number }
{
    match number {
        4 => 0x0D,
        5 => 0xFD,
        6 => 0xFE,
        _ => 0,
    }
}
