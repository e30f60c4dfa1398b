// The server's refusals, and the paper's numbers for its answers (document 01, "Refusal numbers, tested in this
// order"). Numbers 10 to 13 and 23 are the tablet's.
ghost use Rattle.std.specs.Prelude.{◌≡◌};
ghost use Rattle.clock.specs.Answers.{number_of, att_error_of};

#[derive(Clone, Copy)]
pub enum Refusal {
    TableNotSound,
    ClockBroken,
    OutputShort,
    WriteLength,
    SwitchedOff,
    ReportRunning,
    PastTheEnd,
    NothingRunning,
}

// The paper's number for an answer.
#[tactic(auto, unfolding(crate::specs::Answers::number_of))]
pub fn number_of(a: Result<(), Refusal>) -> u8
    ensures { result ≡ number_of a }
{
    match a {
        Ok(()) => 0,
        Err(Refusal::TableNotSound) => 1,
        Err(Refusal::ClockBroken) => 2,
        Err(Refusal::OutputShort) => 3,
        Err(Refusal::WriteLength) => 4,
        Err(Refusal::SwitchedOff) => 5,
        Err(Refusal::ReportRunning) => 6,
        Err(Refusal::PastTheEnd) => 7,
        Err(Refusal::NothingRunning) => 8,
    }
}

// The ATT error that goes with a refused write; 0 where the answer is a number only.
#[tactic(auto, unfolding(crate::specs::Answers::att_error_of))]
pub fn att_error_of(a: Result<(), Refusal>) -> u8
    ensures { result ≡ att_error_of a }
{
    match a {
        Ok(()) => 0,
        Err(Refusal::TableNotSound) => 0,
        Err(Refusal::ClockBroken) => 0,
        Err(Refusal::OutputShort) => 0,
        Err(Refusal::WriteLength) => 0x0D,
        Err(Refusal::SwitchedOff) => 0xFD,
        Err(Refusal::ReportRunning) => 0xFE,
        Err(Refusal::PastTheEnd) => 0,
        Err(Refusal::NothingRunning) => 0,
    }
}
