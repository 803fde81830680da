// How the tables write values and faults.
use fraction::{NoFit, Op};
use gmpl_functions::{Form, Variable, plain_text};
use gmpl_value::{EvalFault, SetValue, Symbol, Tuple};
use std::alloc::{AllocError, Global};

/// A symbol: a string stands behind a quote.
pub(crate) fn symbol_word(alloc: Global, symbol: &Symbol) -> Result<String, AllocError> {
    let text = plain_text(alloc, symbol)?;
    match symbol {
        Symbol::Number(_) => Ok(text),
        Symbol::Word(_) => format!(in alloc; "'{text}"),
    }
}

pub(crate) fn tuple_word(alloc: Global, tuple: &Tuple) -> Result<String, AllocError> {
    let mut made = String::new(alloc);
    for symbol in tuple.symbols() {
        if !made.is_empty() {
            made.push('.')?;
        }
        made.push_str(symbol_word(alloc, symbol)?.as_str())?;
    }
    Ok(made)
}

/// The elements of a set in order.
pub(crate) fn set_word(alloc: Global, set: &SetValue) -> Result<String, AllocError> {
    let mut made = String::new(alloc);
    for tuple in set.elements() {
        if !made.is_empty() {
            made.push(',')?;
        }
        made.push_str(tuple_word(alloc, tuple)?.as_str())?;
    }
    format!(in alloc; "{{{made}}}")
}

// The names of the variables in the tables' models, by the places of their statements.
fn variable_name(variable: &Variable) -> &'static str {
    match variable.statement {
        7 => "x",
        8 => "y",
        9 => "z",
        _ => "v",
    }
}

fn push_term(
    alloc: Global,
    made: &mut String,
    variable: &Variable,
    coefficient: String,
) -> Result<(), AllocError> {
    made.push_str(coefficient.as_str())?;
    made.push_str(variable_name(variable))?;
    for symbol in variable.subscripts.symbols() {
        made.push('.')?;
        made.push_str(symbol_word(alloc, symbol)?.as_str())?;
    }
    made.push('+')
}

/// The terms of a form and its constant.
pub(crate) fn form_word(alloc: Global, form: &Form) -> Result<String, AllocError> {
    let mut made = String::new(alloc);
    for place in 0..form.len() {
        if let Some((variable, coefficient)) = form.term(place) {
            let coefficient = coefficient.text(alloc)?;
            push_term(alloc, &mut made, variable, coefficient)?;
        }
    }
    made.push_str(form.constant().text(alloc)?.as_str())?;
    Ok(made)
}

pub(crate) fn fault_word(alloc: Global, fault: EvalFault) -> Result<String, AllocError> {
    let kind = match fault {
        EvalFault::NoFit(no_fit) => return no_fit_word(alloc, no_fit),
        EvalFault::NoValue => "NoValue",
        EvalFault::OutOfDomain => "OutOfDomain",
        EvalFault::Restriction => "Restriction",
        EvalFault::DivZero => "DivZero",
        EvalFault::NotWhole => "NotWhole",
        EvalFault::NotANumber => "NotANumber",
        EvalFault::Nonlinear => "Nonlinear",
        EvalFault::BadFormat => "BadFormat",
        EvalFault::Depth => "Depth",
        EvalFault::TooMany => "TooMany",
        EvalFault::NoDual => "NoDual",
        EvalFault::NoMemory => "NoMemory",
    };
    format!(in alloc; "!{kind}")
}

fn no_fit_word(alloc: Global, no_fit: NoFit) -> Result<String, AllocError> {
    let op = match no_fit.op {
        Op::Add => "+",
        Op::Sub => "-",
        Op::Mul => "*",
        Op::Div => "/",
    };
    let first = no_fit.a.text(alloc)?;
    let second = no_fit.b.text(alloc)?;
    format!(in alloc; "!NoFit {first} {op} {second}")
}
