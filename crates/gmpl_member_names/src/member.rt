// The names of members.
ghost use Rattle.std.specs.Prelude.{◌≡◌, IfOk, OnOk, string_bytes, ◌++◌};
ghost use Rattle.gmpl_member_names.specs.Names.{member_name, symbol_text, further};
ghost use Rattle.gmpl_member_names.specs.Narrow.{IsNarrow, AreNarrow};

use crate::symbols::symbol_text;
use gmpl_value::{Symbol, Tuple};
use std::alloc::{AllocError, Global};

/// The name of a member: the object's name alone, or with the subscripts in brackets, as `N[s1,s2]`.
pub fn member_name(alloc: Global, name: &str, subscripts: &Tuple) -> Result<String, AllocError>
    ensures name { IfOk result (λ made. string_bytes made ≡ member_name name.now subscripts.now) }
    ensures narrow { OnOk result (AreNarrow subscripts.now) }
{
    let mut made = name.to_string(alloc)?;
    push_subscripts(alloc, &mut made, subscripts.symbols())?;
    Ok(made)
}

fn push_subscripts(
    alloc: Global,
    made: &mut String,
    subscripts: &[Symbol],
) -> Result<(), AllocError>
    ensures name { OnOk result (string_bytes made.new ≡ member_name (string_bytes made.old) subscripts.now) }
    ensures narrow { OnOk result (AreNarrow subscripts.now) }
{
    match subscripts {
        [first, rest @ ..] => {
            made.push_str("[")?;
            push_symbol(alloc, made, first)?;
            push_further(alloc, made, rest)
        }
        [] => Ok(()),
    }
}

fn push_symbol(alloc: Global, made: &mut String, symbol: &Symbol) -> Result<(), AllocError>
    ensures text { OnOk result (string_bytes made.new ≡ string_bytes made.old ++ symbol_text symbol.now) }
    ensures narrow { OnOk result (IsNarrow symbol.now) }
{
    let text = symbol_text(alloc, symbol)?;
    made.push_str(&text)
}

fn push_further(alloc: Global, made: &mut String, symbols: &[Symbol]) -> Result<(), AllocError>
    ensures text { OnOk result (string_bytes made.new ≡ string_bytes made.old ++ further symbols.now) }
    ensures narrow { OnOk result (AreNarrow symbols.now) }
{
    for symbol in symbols {
        made.push_str(",")?;
        push_symbol(alloc, made, symbol)?;
    }
    made.push_str("]")
}
