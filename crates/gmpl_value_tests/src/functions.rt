// The functions and operators at their edges. The values are those of GLPK's solver for these expressions, written as fractions;
// where it rounds, or asks for whole operands, they are worked out from the language reference's rules.
use crate::rows::{Subject, check};
use crate::texts::{fault_word, number, split, symbol, symbol_word};
use fraction::Frac;
use gmpl_functions::{
    ceil, div, floor, greater, greatest, join, least, length, less, lesser, modulo, number_of,
    power, quotient, round, round_to, substring, substring_from, trunc, trunc_to, truth_of,
};
use gmpl_value::{EvalFault, Symbol};
use std::alloc::{AllocError, Global};
use std::test::Fail;

const UNARY: &str = "\
-1 => floor -1/2
0 => floor 1/2
-2 => floor -2
0 => ceil -1/2
1 => ceil 1/2
3 => ceil 3
0 => trunc -1/2
-1 => trunc -3/2
2 => trunc 5/2
0 => round -1/2
1 => round 1/2
-1 => round -3/2
3 => round 5/2
-2 => round -5/2
!NoFit 170141183460469231731687303715884105727/2 + 1/2 => round 170141183460469231731687303715884105727/2
1/2 => abs -1/2
0 => abs 0
";

const BINARY: &str = "\
1 => mod 7 3
2 => mod -7 3
-2 => mod 7 -3
-1 => mod -7 -3
1/2 => mod 5/2 1
0 => mod 6 -3
!DivZero => mod 1 0
2 => div 7 3
-2 => div -7 3
-2 => div 7 -3
2 => div -7 -3
0 => div -1/2 1
!DivZero => div 0 0
4 => less 7 3
0 => less 3 7
0 => less 3 3
1/2 => less 1 1/2
2/3 => over 2 3
!DivZero => over 2 0
8 => power 2 3
-8 => power -2 3
1 => power 0 0
0 => power 0 5
1/8 => power 2 -3
-1/8 => power -2 -3
!DivZero => power 0 -1
!NotWhole => power 4 1/2
1 => power 1 170141183460469231731687303715884105727
-1 => power -1 170141183460469231731687303715884105727
1 => power -1 -170141183460469231731687303715884105726
1 => power -1 0
4/9 => power 2/3 2
85070591730234615865843651857942052864 => power 2 126
!NoFit 85070591730234615865843651857942052864 * 2 => power 2 127
!NoFit 85070591730234615865843651857942052864 * 2 => power 2 -200
!NoFit 100000000000000000000000000000000000000 * 10 => power 10 40
-3 => max -3 -7
-7 => min -3 -7
31/10 => round_to 157/50 1
3 => round_to 3 2
300 => round_to 314 -2
-1/2 => round_to -1/2 1
-2/5 => round_to -9/20 1
!NotWhole => round_to 1 1/2
!NoFit 100000000000000000000000000000000000000 * 10 => round_to 1 39
31/10 => trunc_to 319/100 1
-31/10 => trunc_to -319/100 1
-300 => trunc_to -314 -2
";

const STRINGS: &str = "\
5 => number '5
-1/2 => number '-0.5
1500 => number '+1.5e3
!NotANumber => number 'x
!NotANumber => number '
!NotANumber => number '1_
!NotANumber => number '1/2
!NotANumber => number '1e99
7 => number 7
3 => length 'abc
0 => length '
2 => length 12
3 => length 1/2
2 => length '\u{e9}\u{4e2d}
'abc => rest 'abc 1
'c => rest 'abc 3
' => rest 'abc 4
!OutOfDomain => rest 'abc 5
!OutOfDomain => rest 'abc 0
!NotWhole => rest 'abc 3/2
'b => part 'abc 2 1
' => part 'abc 2 0
' => part 'abc 4 0
'bc => part 'abc 2 2
'\u{4e2d} => part '\u{e9}\u{4e2d}x 2 1
!OutOfDomain => part 'abc 2 3
!OutOfDomain => part 'abc 2 -1
!OutOfDomain => part 'abc 0 2
!OutOfDomain => part 'abc 170141183460469231731687303715884105727 170141183460469231731687303715884105727
!NotWhole => part 'abc 1 1/2
'ab => join 'a 'b
'12 => join 1 2
'x1/2 => join 'x 1/2
'-3 => join ' -3
1 => truth 2
1 => truth -1/2
0 => truth 0
!NotANumber => truth '1
";

const EXTREMES: &str = "\
3 => max 1 3 2
-2 => max -5 -2 -9
1 => min 1 3 2
7 => min 7
!NoValue => max
!NoValue => min
";

fn unary(name: &str, a: Frac) -> Result<Frac, EvalFault> {
    match name {
        "floor" => Ok(floor(a)),
        "ceil" => Ok(ceil(a)),
        "trunc" => Ok(trunc(a)),
        "abs" => Ok(a.abs()),
        _ => round(a),
    }
}

fn binary(name: &str, a: Frac, b: Frac) -> Result<Frac, EvalFault> {
    match name {
        "mod" => modulo(a, b),
        "div" => div(a, b),
        "less" => less(a, b),
        "over" => quotient(a, b),
        "power" => power(a, b),
        "max" => Ok(greater(a, b)),
        "min" => Ok(lesser(a, b)),
        "round_to" => round_to(a, b),
        _ => trunc_to(a, b),
    }
}

fn part(alloc: Global, text: &Symbol, numbers: &str) -> Result<Symbol, EvalFault> {
    match numbers.split_once(' ') {
        Some((place, count)) => substring(alloc, text, number(place), number(count)),
        None => substring_from(alloc, text, number(numbers)),
    }
}

fn truth(symbol: &Symbol) -> Result<Symbol, EvalFault> {
    let truth = truth_of(symbol)?;
    Ok(Symbol::Number(number(if truth { "1" } else { "0" })))
}

// The word that a symbol or a fault is in the tables.
fn answer_word(alloc: Global, answer: Result<Symbol, EvalFault>) -> Result<String, AllocError> {
    match answer {
        Ok(symbol) => symbol_word(alloc, &symbol),
        Err(fault) => fault_word(alloc, fault),
    }
}

fn number_word(alloc: Global, answer: Result<Frac, EvalFault>) -> Result<String, AllocError> {
    match answer {
        Ok(number) => number.text(alloc),
        Err(fault) => fault_word(alloc, fault),
    }
}

fn joined(alloc: Global, first: &Symbol, second: &str) -> Result<Symbol, EvalFault> {
    let second = symbol(alloc, second)?;
    Ok(join(alloc, first, &second)?)
}

fn of_text(alloc: Global, name: &str, first: &Symbol, rest: &str) -> Result<Symbol, EvalFault> {
    match name {
        "number" => Ok(Symbol::Number(number_of(first)?)),
        "length" => Ok(Symbol::Number(length(alloc, first)?)),
        "truth" => truth(first),
        "join" => joined(alloc, first, rest),
        _ => part(alloc, first, rest),
    }
}

fn numbers(alloc: Global, text: &str) -> Result<Vec<Frac>, AllocError> {
    let mut made = Vec::new(alloc);
    for word in text.split_whitespace() {
        made.push(number(word))?;
    }
    Ok(made)
}

pub(crate) fn unary_word(alloc: Global, words: &str) -> Result<String, AllocError> {
    let (name, a) = split(words);
    number_word(alloc, unary(name, number(a)))
}

#[test]
fn functions_of_one_number(rt: HostRuntime) -> Result<(), Fail> {
    check(&rt, rt.alloc(), &Subject::Unary, UNARY)
}

pub(crate) fn binary_word(alloc: Global, words: &str) -> Result<String, AllocError> {
    let (name, operands) = split(words);
    let (a, b) = split(operands);
    number_word(alloc, binary(name, number(a), number(b)))
}

#[test]
fn operators_on_two_numbers(rt: HostRuntime) -> Result<(), Fail> {
    check(&rt, rt.alloc(), &Subject::Binary, BINARY)
}

pub(crate) fn string_word(alloc: Global, words: &str) -> Result<String, AllocError> {
    let (name, operands) = split(words);
    let (first, rest) = split(operands);
    let first = symbol(alloc, first)?;
    answer_word(alloc, of_text(alloc, name, &first, rest))
}

#[test]
fn functions_of_strings(rt: HostRuntime) -> Result<(), Fail> {
    check(&rt, rt.alloc(), &Subject::Strings, STRINGS)
}

fn extreme(name: &str, numbers: &[Frac]) -> Result<Frac, EvalFault> {
    if name == "max" {
        greatest(numbers)
    } else {
        least(numbers)
    }
}

pub(crate) fn extreme_word(alloc: Global, words: &str) -> Result<String, AllocError> {
    let (name, operands) = split(words);
    let numbers = numbers(alloc, operands)?;
    number_word(alloc, extreme(name, &numbers))
}

#[test]
fn extremes_of_numbers(rt: HostRuntime) -> Result<(), Fail> {
    check(&rt, rt.alloc(), &Subject::Extremes, EXTREMES)
}
