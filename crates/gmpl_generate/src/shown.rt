// The texts of values that are shown.
ghost use Rattle.std.specs.Prelude.{◌≡◌, ◌++◌, string_bytes, IfOk, OnOk};
ghost use Rattle.gmpl_value.specs.Outcome.{GivesAs};
ghost use Rattle.gmpl_generate.specs.Shown as spec;

use gmpl_member_names::symbol_text;
use gmpl_operations::Value;
use gmpl_value::{EvalFault, SetValue, Symbol, Tuple};
use std::alloc::{AllocError, Global};

fn push_symbol(alloc: Global, made: &mut String, symbol: &Symbol) -> Result<(), AllocError>
    ensures { OnOk result (string_bytes made.new ≡ string_bytes made.old ++ spec.symbol_text symbol.now) }
{
    let text = symbol_text(alloc, symbol)?;
    made.push_str(&text)
}

// The components behind the first.
fn push_components(alloc: Global, made: &mut String, symbols: &[Symbol]) -> Result<(), AllocError>
    ensures { OnOk result (string_bytes made.new ≡ string_bytes made.old ++ spec.components_text symbols.now) }
{
    for symbol in symbols {
        made.push_str(",")?;
        push_symbol(alloc, made, symbol)?;
    }
    made.push_str(")")
}

fn push_tuple(alloc: Global, made: &mut String, symbols: &[Symbol]) -> Result<(), AllocError>
    ensures { OnOk result (string_bytes made.new ≡ string_bytes made.old ++ spec.element_text symbols.now) }
{
    match symbols {
        [] => made.push_str("()"),
        [single] => push_symbol(alloc, made, single),
        [first, rest @ ..] => {
            made.push_str("(")?;
            push_symbol(alloc, made, first)?;
            push_components(alloc, made, rest)
        }
    }
}

fn push_element(alloc: Global, made: &mut String, element: &Tuple) -> Result<(), AllocError>
    ensures { OnOk result (string_bytes made.new ≡ string_bytes made.old ++ spec.element_text element.now) }
{
    push_tuple(alloc, made, element.symbols())
}

// The elements behind the first.
fn push_elements(alloc: Global, made: &mut String, elements: &[Tuple]) -> Result<(), AllocError>
    ensures { OnOk result (string_bytes made.new ≡ string_bytes made.old ++ spec.further_text elements.now) }
{
    for element in elements {
        made.push_str(", ")?;
        push_element(alloc, made, element)?;
    }
    made.push_str("}")
}

fn push_set(alloc: Global, made: &mut String, elements: &[Tuple]) -> Result<(), AllocError>
    ensures { OnOk result (string_bytes made.new ≡ string_bytes made.old ++ spec.set_text elements.now) }
{
    match elements {
        [] => made.push_str("{}"),
        [first, rest @ ..] => {
            made.push_str("{")?;
            push_element(alloc, made, first)?;
            push_elements(alloc, made, rest)
        }
    }
}

fn set_text(alloc: Global, set: &SetValue) -> Result<String, AllocError>
    ensures { IfOk result (λ text. string_bytes text ≡ spec.set_text set.now) }
{
    let mut made = String::new(alloc);
    push_set(alloc, &mut made, set.elements())?;
    Ok(made)
}

/// The text of a value: a symbol as in the name of a member, a set with its elements between braces. `NotANumber` for all else.
pub(crate) fn shown(alloc: Global, value: &Value) -> Result<String, EvalFault>
    ensures { GivesAs string_bytes result (spec.shown value.now) }
{
    match value {
        Value::Scalar(symbol) => Ok(symbol_text(alloc, symbol)?),
        Value::Elements(set) => Ok(set_text(alloc, set.get())?),
        _ => Err(EvalFault::NotANumber),
    }
}
