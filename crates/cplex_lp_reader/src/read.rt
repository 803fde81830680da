// Whole texts.
ghost use Rattle.std.specs.Prelude.{◌≡◌, ℕ, ◌-◌, ◌≤◌, ◌++◌, List, length, drop, Ok, Err, IfOk, OnOk};
ghost use Rattle.model_text.specs.declared.fault.FileFault.{FileFault as FileFaultOf};
ghost use Rattle.model_text.specs.Profile.{IsWithinInstance};
ghost use Rattle.model_text.specs.Follows.{Follows, Reads};
ghost use Rattle.cplex_lp_tokens.specs.Tokens.{Token as TokenOf, tokens_of};
ghost use Rattle.cplex_lp_reader.specs.CplexLp.{declared, declared_from, declared_within, end_line};
ghost use Rattle.cplex_lp_reader.specs.Ahead.{GoesOn};

use crate::sections::{at_end, read_token};
use cplex_lp_draft::{Draft, finish};
use cplex_lp_tokens::{Token, TokenReader};
use instance::Instance;
use model_text::{FileFault, Profile, ReadError, reader_profile};
use std::alloc::{AllocError, Global};

/// The problem that a CPLEX LP text declares, or its first fault. `Fault` comes exactly where the definition of the
/// format has that fault first; `NoMemory` may come anywhere.
pub fn read_lp(alloc: Global, text: &[u8]) -> Result<Instance, ReadError<FileFault>>
    ensures problem { IfOk result (λ problem. declared text.now ≡ Ok problem) }
    ensures fault { (fault : FileFaultOf) → result ≡ Err (ReadError.Fault fault) → declared text.now ≡ Err fault }
{
    read_within(alloc, &reader_profile(), text)
}

/// The same within a profile's limits.
pub fn read_within(
    alloc: Global,
    profile: &Profile,
    text: &[u8],
) -> Result<Instance, ReadError<FileFault>>
    requires { IsWithinInstance profile.now }
    ensures { Reads result (declared_within profile.now text.now) }
{
    let mut draft = Draft::new(alloc);
    match read_text(alloc, profile, &mut draft, text) {
        Ok(()) => {}
        Err(error) => return Err(error),
    }
    match finish(alloc, draft) {
        Ok(problem) => Ok(problem),
        Err(_) => Err(ReadError::NoMemory),
    }
}

// Adds what a text declares. No more of its tokens are there at a time than are read of a line at once.
fn read_text<'a>(
    alloc: Global,
    profile: &Profile,
    draft: &mut Draft<'a>,
    text: &'a [u8],
) -> Result<(), ReadError<FileFault>>
    requires { IsWithinInstance profile.now }
    ensures { Follows result draft.new (declared_from profile.now (end_line text.now) draft.old (tokens_of text.now)) }
{
    let mut reader = TokenReader::new(text);
    let mut tokens = Vec::new(alloc);
    while !reader.is_ended() {
        match reader.read_more(alloc, &mut tokens) {
            Ok(()) => {}
            Err(_) => return Err(ReadError::NoMemory),
        }
        match read_ahead(alloc, profile, draft, &mut tokens) {
            Ok(()) => {}
            Err(error) => return Err(error),
        }
    }
    read_tokens(alloc, profile, draft, &tokens, reader.line() + 1)
}

// Adds what tokens declare but the last, which stays: what comes after that one isn't there yet.
fn read_ahead<'a>(
    alloc: Global,
    profile: &Profile,
    draft: &mut Draft<'a>,
    tokens: &mut Vec<Token<'a>>,
) -> Result<(), ReadError<FileFault>>
    requires { IsWithinInstance profile.now }
    ensures { (end : ℕ) (more : List TokenOf) → GoesOn result (declared_from profile.now end draft.old (tokens.old.items ++ more)) (declared_from profile.now end draft.new (tokens.new.items ++ more)) }
{
    match read_before_last(alloc, profile, draft, tokens) {
        Ok(()) => {}
        Err(error) => return Err(error),
    }
    match keep_last(tokens) {
        Ok(()) => Ok(()),
        Err(_) => Err(ReadError::NoMemory),
    }
}

fn read_before_last<'a>(
    alloc: Global,
    profile: &Profile,
    draft: &mut Draft<'a>,
    tokens: &[Token<'a>],
) -> Result<(), ReadError<FileFault>>
    requires { IsWithinInstance profile.now }
    ensures { (end : ℕ) (more : List TokenOf) → GoesOn result (declared_from profile.now end draft.old (tokens.now ++ more)) (declared_from profile.now end draft.new (drop (length tokens.now - 1) tokens.now ++ more)) }
{
    let last = tokens.len().saturating_sub(1);
    for i in 0..last {
        match read_token(alloc, profile, draft, &tokens[i], after(tokens, i + 1)) {
            Ok(()) => {}
            Err(error) => return Err(error),
        }
    }
    Ok(())
}

fn keep_last(tokens: &mut Vec<Token>) -> Result<(), AllocError>
    ensures { OnOk result (tokens.new.items ≡ drop (length tokens.old.items - 1) tokens.old.items) }
{
    let Some(last) = tokens.pop() else {
        return Ok(());
    };
    tokens.clear();
    tokens.push(last)?;
    Ok(())
}

// Adds what these tokens declare, which are all that are left of a text whose end is at a line.
fn read_tokens<'a>(
    alloc: Global,
    profile: &Profile,
    draft: &mut Draft<'a>,
    tokens: &[Token<'a>],
    end: usize,
) -> Result<(), ReadError<FileFault>>
    requires { IsWithinInstance profile.now }
    ensures { Follows result draft.new (declared_from profile.now end draft.old tokens.now) }
{
    for i in 0..tokens.len() {
        match read_token(alloc, profile, draft, &tokens[i], after(tokens, i + 1)) {
            Ok(()) => {}
            Err(error) => return Err(error),
        }
    }
    at_end(draft, end)
}

// What comes after so many tokens.
fn after<'a, 'b>(tokens: &'b [Token<'a>], count: usize) -> &'b [Token<'a>]
    requires { count ≤ length tokens.now }
    ensures { result.now ≡ drop count tokens.now }
{
    &tokens[count..]
}
