// The faults of tokens.
ghost use Rattle.std.specs.Prelude.{◌≡◌};
ghost use Rattle.model_text.specs.declared.fault.FaultKind.TheVariants.{BadLine};
ghost use Rattle.model_text.specs.declared.error.ReadError.TheVariants.{Fault};
ghost use Rattle.model_text.specs.Follows.{Reads};
ghost use Rattle.cplex_lp_draft.specs.Steps.{number_of};

use cplex_lp_tokens::Token;
use fraction::Frac;
use model_text::{FaultKind, FileFault, ReadError};

// A fault of this kind at a line.
pub(crate) fn fault_at(line: usize, kind: FaultKind) -> ReadError<FileFault>
    ensures { result ≡ Fault (record { line = line; kind = kind }) }
{
    ReadError::Fault(FileFault { line, kind })
}

// The token doesn't stand where it may.
pub(crate) fn misplaced(token: &Token) -> ReadError<FileFault>
    ensures { result ≡ Fault (record { line = token.now.line; kind = BadLine }) }
{
    fault_at(token.line(), FaultKind::BadLine)
}

// The value of a literal.
pub(crate) fn number_of_token(token: &Token) -> Result<Frac, ReadError<FileFault>>
    ensures { Reads result (number_of token.now) }
{
    match Frac::read(token.text()) {
        Ok(value) => Ok(value),
        Err(_) => Err(fault_at(token.line(), FaultKind::TooWide)),
    }
}
