// The first two passes, statement by statement.
ghost use Rattle.std.specs.Prelude.{◌≡◌, IfOk};
ghost use Rattle.gmpl_statements.specs.Statements.{statements_of};
ghost use Rattle.gmpl_names.specs.Statements.{stopped};
ghost use Rattle.gmpl_parse.specs.Models.{IsResolved};

use gmpl_names::Resolver;
use gmpl_resolved::Statements;
use gmpl_statements::{Next, StatementReader};
use gmpl_syntax::SyntaxFault;
use gmpl_token::Tokens;
use std::alloc::{AllocError, Global};

/// The statements of a model whose names are resolved, up to the first bad one, and where its data section begins: behind the
/// semicolon at this place of the text.
#[derive(Drop)]
pub(crate) struct Found {
    pub(crate) statements: Statements,
    pub(crate) data_at: Option<usize>,
}

/// The statements that these tokens make, with their names resolved. Each is resolved as soon as it is read, and its tokens and its
/// first tree are given up.
pub(crate) fn resolved(alloc: Global, tokens: Tokens<'_>) -> Result<Found, AllocError>
    ensures { IfOk result (λ found. IsResolved found.statements found.data_at (statements_of tokens.entry)) }
{
    let mut reader = StatementReader::new(tokens);
    let mut resolver = Resolver::new(alloc);
    let turns = reader.left();
    for turn in 0..turns {
        match reader.next(alloc, turn + 1)? {
            Next::Statement(one) => match resolver.add(alloc, turn + 1, &one)? {
                None => {}
                Some(own) => return Ok(ended(resolver, Some(own), None)),
            },
            Next::Data { at, .. } => return Ok(ended(resolver, None, Some(at))),
            Next::End(fault) => return Ok(ended(resolver, fault, None)),
        }
    }
    let fault = reader.end(turns + 1);
    Ok(ended(resolver, fault, None))
}

fn ended(resolver: Resolver, fault: Option<SyntaxFault>, data_at: Option<usize>) -> Found
    ensures { result ≡ record { statements = stopped resolver.made fault; data_at = data_at } }
{
    Found {
        statements: resolver.finish(fault),
        data_at,
    }
}
