// The attributes of sets, parameters and variables.
ghost use Rattle.std.specs.Prelude.{◌≡◌, OnOk};
ghost use Rattle.gmpl_words.specs.Attributes as spec;

use crate::operators::{bound_of, comparison};
use gmpl_syntax::Relation;
use gmpl_token::TokenKind;
use sqlite_items::Items;
use std::alloc::AllocError;

/// The objects that attributes describe.
#[derive(Clone, Copy, Debug, PartialEq, Eq)]
pub enum Declared {
    Set,
    Param,
    Var,
}

/// What a token announces among attributes.
#[derive(Clone, Copy, Debug, PartialEq, Eq)]
pub enum AttributeWord {
    Dimension,
    Restriction(Relation),
    Assigned,
    Default,
    Integer,
    Binary,
    Symbolic,
}

// ---- what a token announces

fn set_name(text: &str) -> Option<AttributeWord>
    ensures { result ≡ spec.set_name text.now }
{
    match text {
        "dimen" => Some(AttributeWord::Dimension),
        "default" => Some(AttributeWord::Default),
        _ => None,
    }
}

fn set_word(kind: TokenKind, text: &str) -> Option<AttributeWord>
    ensures { result ≡ spec.set_word kind text.now }
{
    match kind {
        TokenKind::Within => Some(AttributeWord::Restriction(Relation::Within)),
        TokenKind::Assign => Some(AttributeWord::Assigned),
        TokenKind::Name => set_name(text),
        _ => None,
    }
}

fn param_name(text: &str) -> Option<AttributeWord>
    ensures { result ≡ spec.param_name text.now }
{
    match text {
        "integer" => Some(AttributeWord::Integer),
        "binary" => Some(AttributeWord::Binary),
        "symbolic" => Some(AttributeWord::Symbolic),
        "default" => Some(AttributeWord::Default),
        _ => None,
    }
}

fn param_word(kind: TokenKind, text: &str) -> Option<AttributeWord>
    ensures { result ≡ spec.param_word kind text.now }
{
    match kind {
        TokenKind::In => Some(AttributeWord::Restriction(Relation::In)),
        TokenKind::Assign => Some(AttributeWord::Assigned),
        TokenKind::Name => param_name(text),
        other => match comparison(other) {
            Some(relation) => Some(AttributeWord::Restriction(relation)),
            None => None,
        },
    }
}

fn var_name(text: &str) -> Option<AttributeWord>
    ensures { result ≡ spec.var_name text.now }
{
    match text {
        "integer" => Some(AttributeWord::Integer),
        "binary" => Some(AttributeWord::Binary),
        _ => None,
    }
}

fn var_word(kind: TokenKind, text: &str) -> Option<AttributeWord>
    ensures { result ≡ spec.var_word kind text.now }
{
    match kind {
        TokenKind::Name => var_name(text),
        other => match bound_of(other) {
            Some(relation) => Some(AttributeWord::Restriction(relation)),
            None => None,
        },
    }
}

fn word_of_kind(declared: Declared, kind: TokenKind, text: &str) -> Option<AttributeWord>
    ensures { result ≡ spec.word_of_kind declared kind text.now }
{
    match declared {
        Declared::Set => set_word(kind, text),
        Declared::Param => param_word(kind, text),
        Declared::Var => var_word(kind, text),
    }
}

/// The attribute of such an object that a token of this kind and text announces.
pub fn attribute_word(
    declared: Declared,
    kind: Option<TokenKind>,
    text: &str,
) -> Option<AttributeWord>
    ensures { result ≡ spec.attribute_word declared kind text.now }
{
    match kind {
        Some(kind) => word_of_kind(declared, kind, text),
        None => None,
    }
}

// ---- which attributes stand together

#[tactic(auto, unfolding(crate::specs::Attributes::restrictions_exclude))]
fn restrictions_exclude(declared: Declared, old: Relation, new: Relation) -> bool
    ensures { result ≡ spec.restrictions_exclude declared old new }
{
    match (declared, old, new) {
        (Declared::Var, Relation::AtMost, Relation::AtLeast) => false,
        (Declared::Var, Relation::AtLeast, Relation::AtMost) => false,
        (Declared::Var, _, _) => true,
        _ => false,
    }
}

#[tactic(auto, unfolding(crate::specs::Attributes::excludes))]
fn excludes(declared: Declared, old: AttributeWord, new: AttributeWord) -> bool
    ensures { result ≡ spec.excludes declared old new }
{
    match (old, new) {
        (AttributeWord::Dimension, AttributeWord::Dimension) => true,
        (AttributeWord::Assigned, AttributeWord::Assigned | AttributeWord::Default) => true,
        (AttributeWord::Default, AttributeWord::Assigned | AttributeWord::Default) => true,
        (AttributeWord::Integer, AttributeWord::Integer) => true,
        (AttributeWord::Binary, AttributeWord::Binary) => true,
        (AttributeWord::Symbolic, AttributeWord::Symbolic) => true,
        (AttributeWord::Restriction(old), AttributeWord::Restriction(new)) => {
            restrictions_exclude(declared, old, new)
        }
        _ => false,
    }
}

/// An attribute may stand behind those that these words announced.
pub fn fits(declared: Declared, words: &[AttributeWord], new: AttributeWord) -> bool
    ensures { result ≡ spec.fits declared words.now new }
{
    for old in words {
        if excludes(declared, *old, new) {
            return false;
        }
    }
    true
}

#[tactic(auto, unfolding(crate::specs::Attributes::may_repeat))]
fn may_repeat(declared: Declared, word: AttributeWord) -> bool
    ensures { result ≡ spec.may_repeat declared word }
{
    match (declared, word) {
        (Declared::Var, _) => false,
        (_, AttributeWord::Restriction(_)) => true,
        _ => false,
    }
}

/// Notes one more attribute among the words behind which others have to fit. These are few, since all but what excludes nothing
/// stand once.
pub fn note(
    declared: Declared,
    words: &mut Items<AttributeWord>,
    new: AttributeWord,
) -> Result<(), AllocError>
    ensures { OnOk result (words.new ≡ spec.noted declared words.old new) }
{
    if !may_repeat(declared, new) {
        words.push(new)?;
    }
    Ok(())
}
