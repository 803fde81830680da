// How the tables write symbols, tuples and faults.
use fraction::{Frac, NoFit, Op};
use gmpl_functions::plain_text;
use gmpl_text::Text;
use gmpl_value::{EvalFault, SetFault, Symbol, Tuple};
use std::alloc::{AllocError, Global};

/// The first word, and the words behind it.
pub(crate) fn split(words: &str) -> (&str, &str) {
    words.split_once(' ').unwrap_or((words, ""))
}

/// A number, or a string behind a quote, in which `_` is a blank.
pub(crate) fn symbol(alloc: Global, word: &str) -> Result<Symbol, AllocError> {
    match word.strip_prefix('\'') {
        Some(text) => Ok(Symbol::Word(Text::from(text.replace(alloc, "_", " ")?))),
        None => Ok(Symbol::Number(number(word))),
    }
}

pub(crate) fn number(word: &str) -> Frac {
    match Frac::read_canonical(word) {
        Ok(number) => number,
        Err(_) => Frac::whole(-9999),
    }
}

/// Symbols with points between them.
pub(crate) fn tuple(alloc: Global, text: &str) -> Result<Tuple, AllocError> {
    let mut made = Tuple::new(alloc);
    for word in text.split('.') {
        made.push(symbol(alloc, word)?)?;
    }
    Ok(made)
}

/// A symbol as the tables write it.
pub(crate) fn symbol_word(alloc: Global, symbol: &Symbol) -> Result<String, AllocError> {
    let text = plain_text(alloc, symbol)?;
    match symbol {
        Symbol::Number(_) => Ok(text),
        Symbol::Word(_) => format!(in alloc; "'{text}"),
    }
}

pub(crate) fn tuple_word(alloc: Global, tuple: &Tuple) -> Result<String, AllocError> {
    let mut made = String::new(alloc);
    for symbol in tuple.symbols() {
        if !made.is_empty() {
            made.push('.')?;
        }
        made.push_str(symbol_word(alloc, symbol)?.as_str())?;
    }
    Ok(made)
}

pub(crate) fn set_fault_word(alloc: Global, fault: SetFault) -> Result<String, AllocError> {
    fault_word(alloc, EvalFault::from(fault))
}

pub(crate) fn fault_word(alloc: Global, fault: EvalFault) -> Result<String, AllocError> {
    let kind = match fault {
        EvalFault::NoFit(no_fit) => return no_fit_word(alloc, no_fit),
        EvalFault::NoValue => "NoValue",
        EvalFault::OutOfDomain => "OutOfDomain",
        EvalFault::DivZero => "DivZero",
        EvalFault::NotWhole => "NotWhole",
        EvalFault::NotANumber => "NotANumber",
        EvalFault::Nonlinear => "Nonlinear",
        EvalFault::BadFormat => "BadFormat",
        EvalFault::TooMany => "TooMany",
        EvalFault::NoMemory => "NoMemory",
        _ => "?",
    };
    format!(in alloc; "!{kind}")
}

fn no_fit_word(alloc: Global, no_fit: NoFit) -> Result<String, AllocError> {
    let op = match no_fit.op {
        Op::Add => "+",
        Op::Sub => "-",
        Op::Mul => "*",
        Op::Div => "/",
    };
    let first = no_fit.a.text(alloc)?;
    let second = no_fit.b.text(alloc)?;
    format!(in alloc; "!NoFit {first} {op} {second}")
}
