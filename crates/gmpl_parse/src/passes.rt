// The passes one after another.
ghost use Rattle.gmpl_syntax.specs.declared.statement.Statements.{Statements as Written};
ghost use Rattle.gmpl_parse.specs.Models as spec;
ghost use Rattle.gmpl_parse.specs.Models.{IsOutcome, IsResolved};

use crate::model::{Model, ParseError};
use crate::reading::{Found, resolved};
use gmpl_statement_kinds::judge_statements;
use gmpl_token::Tokens;
use std::alloc::Global;

// The model that the statements of the first two passes make, or the first fault: of a kind, or the one that ended them.
fn judged(alloc: Global, found: Found) -> Result<Model, ParseError>
    ensures { (whole : Written) → IsResolved found.statements found.data_at whole → IsOutcome (spec.model_of whole) result }
{
    let judgement = judge_statements(alloc, &found.statements)?;
    match judgement.fault {
        Some(fault) => Err(ParseError::Fault(fault)),
        None => Ok(Model {
            statements: found.statements.items,
            steps: found.statements.steps,
            objects: judgement.objects,
            data_at: found.data_at,
        }),
    }
}

/// The model that these tokens of a text make, or its first fault. The tokens and the trees of the first pass are given up statement
/// by statement.
/// Errors: `Fault` with the number, the line and the kind of the first bad statement; `NoMemory`.
pub fn parse(alloc: Global, tokens: Tokens<'_>) -> Result<Model, ParseError>
    ensures { IsOutcome (spec.parsed tokens.entry) result }
{
    let found = resolved(alloc, tokens)?;
    judged(alloc, found)
}
