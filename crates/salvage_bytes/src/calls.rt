// A log got back from a damaged table. Refuses: 20, 21, 3; then nothing is written. Answers the report's length.
ghost use Rattle.std.specs.Prelude.{◌≡◌};
ghost use Rattle.salvage_bytes.specs.Calls.{salvaged_bytes, salvage_at};

use salvage_call::salvage::{SalvageError, salvage};

pub fn salvage_at(input: &[u8], table: &mut [u8], report: &mut [u8]) -> i32
    ensures { salvaged_bytes result table.new report.new ≡ salvage_at input.now table.old report.old }
{
    match salvage(input, table, report) {
        Ok(told) => told as i32,
        Err(SalvageError::DoesNotFit) => -3,
        Err(SalvageError::SizeImpossible) => -20,
        Err(SalvageError::NoRecord) => -21,
    }
}
