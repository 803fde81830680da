// Names that mean a function before `(` or an iteration before `{`, and suffixes.
ghost use Rattle.std.specs.Prelude.{◌≡◌};
ghost use Rattle.gmpl_words.specs.Functions as spec;

use gmpl_syntax::{Function, Iteration, Suffix};

/// The iteration that a name before `{` means.
pub fn iteration_word(text: &str) -> Option<Iteration>
    ensures { result ≡ spec.iteration_word text.now }
{
    match text {
        "sum" => Some(Iteration::Sum),
        "prod" => Some(Iteration::Prod),
        "min" => Some(Iteration::Min),
        "max" => Some(Iteration::Max),
        "setof" => Some(Iteration::Setof),
        "forall" => Some(Iteration::Forall),
        "exists" => Some(Iteration::Exists),
        _ => None,
    }
}

fn is_inexact(text: &str) -> bool
    ensures { result ≡ spec.is_inexact text.now }
{
    match text {
        "atan" => true,
        "cos" => true,
        "exp" => true,
        "log" => true,
        "log10" => true,
        "sin" => true,
        "sqrt" => true,
        "tan" => true,
        _ => false,
    }
}

fn is_random(text: &str) -> bool
    ensures { result ≡ spec.is_random text.now }
{
    match text {
        "Irand224" => true,
        "Uniform01" => true,
        "Uniform" => true,
        "Normal01" => true,
        "Normal" => true,
        _ => false,
    }
}

fn is_of_time(text: &str) -> bool
    ensures { result ≡ spec.is_of_time text.now }
{
    match text {
        "gmtime" => true,
        "str2time" => true,
        "time2str" => true,
        _ => false,
    }
}

fn is_left_out(text: &str) -> bool
    ensures { result ≡ spec.is_left_out text.now }
{
    is_inexact(text) || (is_random(text) || is_of_time(text))
}

fn left_out(text: &str) -> Option<Function>
    ensures { result ≡ spec.left_out text.now }
{
    if is_left_out(text) {
        Some(Function::LeftOut)
    } else {
        None
    }
}

/// The function that a name before `(` means.
pub fn function_word(text: &str) -> Option<Function>
    ensures { result ≡ spec.function_word text.now }
{
    match text {
        "abs" => Some(Function::Abs),
        "ceil" => Some(Function::Ceil),
        "floor" => Some(Function::Floor),
        "trunc" => Some(Function::Trunc),
        "round" => Some(Function::Round),
        "max" => Some(Function::Max),
        "min" => Some(Function::Min),
        "card" => Some(Function::Card),
        "length" => Some(Function::Length),
        "substr" => Some(Function::Substr),
        _ => left_out(text),
    }
}

/// How many arguments a function takes behind the first, at least.
pub fn fewest_more(function: Function) -> usize
    ensures { result ≡ spec.fewest_more function }
{
    match function {
        Function::Substr => 1,
        _ => 0,
    }
}

/// How many arguments a function takes behind the first, at most, where so many tokens are left.
pub fn most_more(function: Function, left: usize) -> usize
    ensures { result ≡ spec.most_more function left }
{
    match function {
        Function::Trunc | Function::Round => 1,
        Function::Substr => 2,
        Function::Max | Function::Min | Function::LeftOut => left,
        _ => 0,
    }
}

/// The suffix that a name behind a point means.
pub fn suffix_word(text: &str) -> Option<Suffix>
    ensures { result ≡ spec.suffix_word text.now }
{
    match text {
        "val" => Some(Suffix::Value),
        "lb" => Some(Suffix::LowerBound),
        "ub" => Some(Suffix::UpperBound),
        "dual" => Some(Suffix::Dual),
        "status" => Some(Suffix::LeftOut),
        _ => None,
    }
}
