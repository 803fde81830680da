// Linear forms: operands first, then the operator. A letter is a variable, `~` is the sign.
use crate::rows::{Subject, check};
use crate::texts::{fault_word, number};
use gmpl_functions::{Amount, Form, Sign, Variable};
use gmpl_text::Text;
use gmpl_value::{EvalFault, Symbol, Tuple};
use std::alloc::{AllocError, Global};
use std::test::Fail;

const FORMS: &str = "\
3 => 1 2 +
1x+0 => x
1x+3 => x 3 +
1x+3 => 3 x +
-1x+3 => 3 x -
1x+1y+0 => x y +
2x+1y+0 => x y + x +
0x+1y+0 => x y + x -
0x+0 => x x -
1x+-1y+0 => x y -
2x+6 => x 3 + 2 *
2x+6 => 2 x 3 + *
0x+0 => 0 x *
1/2x+0 => x 2 /
-1x+-3 => x 3 + ~
!Nonlinear => x y *
!Nonlinear => x x - y *
!Nonlinear => 0 x * y *
!Nonlinear => 2 x /
!DivZero => x 0 /
!DivZero => 1 0 /
!NoFit 100000000000000000000000000000000000000 * 10 => 10 100000000000000000000000000000000000000 x * 10 * +
!NoFit 10 * 100000000000000000000000000000000000000 => 10 100000000000000000000000000000000000000 x * *
!NoFit 170141183460469231731687303715884105727 + 1 => 170141183460469231731687303715884105727 x * x +
1y+1x+0 => y x +
";

fn variable(alloc: Global, name: &str) -> Result<Amount, EvalFault> {
    let subscripts = Tuple::single(alloc, Symbol::Word(Text::new(alloc, name)?))?;
    let variable = Variable {
        statement: 0,
        subscripts,
    };
    Ok(Amount::Form(Form::variable(alloc, variable)?))
}

fn is_operator(word: &str) -> bool {
    word == "+" || word == "-" || word == "*" || word == "/"
}

fn combined(
    alloc: Global,
    operator: &str,
    first: Amount,
    second: Amount,
) -> Result<Amount, EvalFault> {
    match operator {
        "+" => first.combined(alloc, Sign::Plus, second),
        "-" => first.combined(alloc, Sign::Minus, second),
        "*" => first.times(second),
        _ => first.over(second),
    }
}

fn pop(stack: &mut Vec<Amount>) -> Amount {
    match stack.pop() {
        Some(amount) => amount,
        None => Amount::Number(number("-9999")),
    }
}

fn step(alloc: Global, stack: &mut Vec<Amount>, word: &str) -> Result<Amount, EvalFault> {
    if is_operator(word) {
        let second = pop(stack);
        let first = pop(stack);
        return combined(alloc, word, first, second);
    }
    if word == "~" {
        return pop(stack).negated();
    }
    if word == "x" || word == "y" {
        return variable(alloc, word);
    }
    Ok(Amount::Number(number(word)))
}

fn value(alloc: Global, text: &str) -> Result<Amount, EvalFault> {
    let mut stack = Vec::new(alloc);
    for word in text.split_whitespace() {
        let amount = step(alloc, &mut stack, word)?;
        stack.push(amount)?;
    }
    Ok(pop(&mut stack))
}

fn variable_word(variable: &Variable) -> &str {
    match variable.subscripts.symbols() {
        [Symbol::Word(name)] => name.as_str(),
        _ => "?",
    }
}

fn form_word(alloc: Global, form: &Form) -> Result<String, AllocError> {
    let mut made = String::new(alloc);
    for place in 0..form.len() {
        if let Some((variable, coefficient)) = form.term(place) {
            made.push_str(coefficient.text(alloc)?.as_str())?;
            made.push_str(variable_word(variable))?;
            made.push('+')?;
        }
    }
    made.push_str(form.constant().text(alloc)?.as_str())?;
    Ok(made)
}

fn amount_word(alloc: Global, amount: &Amount) -> Result<String, AllocError> {
    match amount {
        Amount::Number(number) => number.text(alloc),
        Amount::Form(form) => form_word(alloc, form),
    }
}

fn answer_word(alloc: Global, answer: Result<Amount, EvalFault>) -> Result<String, AllocError> {
    match answer {
        Ok(amount) => amount_word(alloc, &amount),
        Err(fault) => fault_word(alloc, fault),
    }
}

pub(crate) fn form_answer(alloc: Global, text: &str) -> Result<String, AllocError> {
    answer_word(alloc, value(alloc, text))
}

#[test]
fn linear_forms(rt: HostRuntime) -> Result<(), Fail> {
    check(&rt, rt.alloc(), &Subject::Forms, FORMS)
}
