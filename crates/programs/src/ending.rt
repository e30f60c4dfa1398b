// How a run ends.
ghost use Rattle.std.specs.Prelude.{◌≡◌};
ghost use Rattle.std.specs.Process.{exit_status};
ghost use Rattle.std.specs.Result.{MatchResult};

use anyhow::Result;
use std::process::ExitCode;

// A run that could not go on says on standard error what could not be read or written, after the program's name; the status is then 1.
pub fn end(rt: &impl Eprint, program: &str, outcome: Result<()>) -> ExitCode
    ensures { MatchResult outcome (λ _. exit_status result ≡ 0) (λ _. exit_status result ≡ 1) }
{
    match outcome {
        Ok(()) => ExitCode::SUCCESS,
        Err(why) => {
            let _ = eprintln!(rt; "{program}: {why:#}");
            ExitCode::FAILURE
        }
    }
}
