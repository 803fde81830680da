// Sets and their operations, ranges, the order of symbols, and the names of members.
use crate::rows::{Subject, check};
use crate::texts::{number, set_fault_word, split, symbol, tuple, tuple_word};
use gmpl_functions::card;
use gmpl_member_names::member_name;
use gmpl_value::{SetFault, SetValue, Symbol, Tuple, cross, diff, inter, range, symdiff, union};
use std::alloc::{AllocError, Global};
use std::cmp::Ordering;
use std::test::Fail;

// Elements have commas between them, and their parts points; the empty set is `-`.
const OPERATIONS: &str = "\
3,1,2 => union 3,1 1,2
3,1 => union 3,1 1
1 => union - 1
- => union - -
3,2 => diff 3,1,2 1,5
- => diff 1,2 2,1
3,2 => inter 3,1,2 2,3
- => inter 1 2
3,2,5,4 => symdiff 3,1,2 5,1,4
- => symdiff 1,2 2,1
1,'1 => union 1 '1
1/2,2 => union 1/2 2,1/2
1.'a,1.'b,2.'a,2.'b => cross 1,2 'a,'b
1.2.3 => cross 1.2 3
- => cross - 1
- => cross 1 -
2.1 => diff 1.2,2.1 1.2
";

const RANGES: &str = "\
1,2,3 => 1 3 1
1,3,5 => 1 6 2
3,2,1 => 3 1 -1
1 => 1 1 1
- => 2 1 1
- => 1 2 -1
1/2,1,3/2,2 => 1/2 2 1/2
1 => 1 3/2 1
!TooMany => 1 5000001 1
!TooMany => 0 1 1/5000000
!NoFit 170141183460469231731687303715884105727 - -1 => -1 170141183460469231731687303715884105727 1
!NoFit 2 / 1/170141183460469231731687303715884105727 => 0 2 1/170141183460469231731687303715884105727
";

const ORDERS: &str = "\
< => 1 2
> => 1/2 1/3
= => 2 2
< => 5 'a
> => 'a 5
< => 1000 '1
< => 'a 'b
< => 'B 'a
< => 'a 'ab
= => 'ab 'ab
< => ' 'a
";

const NAMES: &str = "\
x => x
x[1] => x 1
x[-1/2,a] => x -1/2.'a
x['a b','','1'] => x 'a_b.'.'1
x[a-1] => x 'a-1
x['it''s'] => x 'it's
x['a,b'] => x 'a,b
";

// What is in a set, whether it lies within another, its copy, and the number of its elements.
const MEMBERS: &str = "\
yes => has 2.'a,1.'b 1.'b
no => has 2.'a,1.'b 1.'c
yes => within 2.'a,1.'b 1.'b,3.'c,2.'a
no => within 1.'b,3.'c,2.'a 2.'a,1.'b
2.'a,1.'b => copy 2.'a,1.'b
3 => card 1.'b,3.'c,2.'a
";

fn set(alloc: Global, text: &str) -> Result<SetValue, SetFault> {
    let mut made = SetValue::new(alloc);
    if text == "-" {
        return Ok(made);
    }
    for word in text.split(',') {
        made.insert(tuple(alloc, word)?)?;
    }
    Ok(made)
}

fn set_word(alloc: Global, set: &SetValue) -> Result<String, AllocError> {
    let mut made = String::new(alloc);
    for tuple in set.elements() {
        if !made.is_empty() {
            made.push(',')?;
        }
        made.push_str(tuple_word(alloc, tuple)?.as_str())?;
    }
    if made.is_empty() {
        made.push('-')?;
    }
    Ok(made)
}

fn answer_word(alloc: Global, answer: Result<SetValue, SetFault>) -> Result<String, AllocError> {
    match answer {
        Ok(set) => set_word(alloc, &set),
        Err(fault) => set_fault_word(alloc, fault),
    }
}

fn operation(
    alloc: Global,
    name: &str,
    first: &SetValue,
    second: &SetValue,
) -> Result<SetValue, SetFault> {
    match name {
        "union" => union(alloc, first, second),
        "diff" => diff(alloc, first, second),
        "inter" => inter(alloc, first, second),
        "symdiff" => symdiff(alloc, first, second),
        _ => cross(alloc, first, second),
    }
}

fn applied(alloc: Global, name: &str, first: &str, second: &str) -> Result<SetValue, SetFault> {
    let first = set(alloc, first)?;
    let second = set(alloc, second)?;
    operation(alloc, name, &first, &second)
}

pub(crate) fn operation_word(alloc: Global, words: &str) -> Result<String, AllocError> {
    let (name, operands) = split(words);
    let (first, second) = split(operands);
    answer_word(alloc, applied(alloc, name, first, second))
}

#[test]
fn operations_on_sets(rt: HostRuntime) -> Result<(), Fail> {
    check(&rt, rt.alloc(), &Subject::Operations, OPERATIONS)
}

pub(crate) fn range_word(alloc: Global, words: &str) -> Result<String, AllocError> {
    let (from, rest) = split(words);
    let (to, by) = split(rest);
    let by = number(by);
    if by.is_zero() {
        return "no step".to_string(alloc);
    }
    answer_word(alloc, range(alloc, number(from), number(to), by))
}

#[test]
fn ranges(rt: HostRuntime) -> Result<(), Fail> {
    check(&rt, rt.alloc(), &Subject::Ranges, RANGES)
}

fn sign(order: Ordering) -> &'static str {
    match order {
        Ordering::Less => "<",
        Ordering::Equal => "=",
        Ordering::Greater => ">",
    }
}

pub(crate) fn order_word(alloc: Global, words: &str) -> Result<String, AllocError> {
    let (first, second) = split(words);
    let first = symbol(alloc, first)?;
    let second = symbol(alloc, second)?;
    sign(first.order(&second)).to_string(alloc)
}

#[test]
fn orders_of_symbols(rt: HostRuntime) -> Result<(), Fail> {
    check(&rt, rt.alloc(), &Subject::Orders, ORDERS)
}

fn subscripts(alloc: Global, text: &str) -> Result<Tuple, AllocError> {
    if text.is_empty() {
        return Ok(Tuple::new(alloc));
    }
    tuple(alloc, text)
}

pub(crate) fn member_word(alloc: Global, words: &str) -> Result<String, AllocError> {
    let (name, text) = split(words);
    let subscripts = subscripts(alloc, text)?;
    member_name(alloc, name, &subscripts)
}

#[test]
fn names_of_members(rt: HostRuntime) -> Result<(), Fail> {
    check(&rt, rt.alloc(), &Subject::Names, NAMES)
}

fn truth_word(truth: bool) -> &'static str {
    if truth { "yes" } else { "no" }
}

fn has(alloc: Global, set: &SetValue, element: &str) -> Result<bool, SetFault> {
    let element = tuple(alloc, element)?;
    Ok(set.contains(&element))
}

fn is_within(alloc: Global, small: &SetValue, large: &str) -> Result<bool, SetFault> {
    let large = set(alloc, large)?;
    Ok(small.is_within(&large))
}

fn copy_word(alloc: Global, set: &SetValue) -> Result<String, SetFault> {
    let copied = set.copied(alloc)?;
    Ok(set_word(alloc, &copied)?)
}

fn question(alloc: Global, name: &str, set: &SetValue, rest: &str) -> Result<String, SetFault> {
    match name {
        "has" => Ok(truth_word(has(alloc, set, rest)?).to_string(alloc)?),
        "within" => Ok(truth_word(is_within(alloc, set, rest)?).to_string(alloc)?),
        "copy" => copy_word(alloc, set),
        _ => Ok(card(set).text(alloc)?),
    }
}

fn asked(alloc: Global, words: &str) -> Result<String, SetFault> {
    let (name, operands) = split(words);
    let (first, rest) = split(operands);
    let first = set(alloc, first)?;
    question(alloc, name, &first, rest)
}

pub(crate) fn asked_word(alloc: Global, words: &str) -> Result<String, AllocError> {
    match asked(alloc, words) {
        Ok(word) => Ok(word),
        Err(fault) => set_fault_word(alloc, fault),
    }
}

#[test]
fn members_of_sets(rt: HostRuntime) -> Result<(), Fail> {
    check(&rt, rt.alloc(), &Subject::Members, MEMBERS)
}
