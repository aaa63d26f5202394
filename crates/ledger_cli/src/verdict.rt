//! Whether all is well, as an answer.

ghost use Rattle.std.specs.Prelude.{◌≡◌};
ghost use Rattle.ledger_cli.specs.Verdicts.{verdict_answer};

use cli_lines::Failure;

/// What a task answers that found whether all is well: a difference is a failure, which is printed.
pub(crate) fn answer_of(verdict: Result<bool, Failure>) -> Result<(), Failure>
    ensures { result ≡ verdict_answer verdict }
{
    match verdict {
        Ok(true) => Ok(()),
        Ok(false) => Err(Failure::Printed),
        Err(failure) => Err(failure),
    }
}
