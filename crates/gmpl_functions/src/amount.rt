// Numbers and linear forms, and the operators on them.
ghost use Rattle.std.specs.Prelude.{◌≡◌, IfOk};
ghost use Rattle.gmpl_value.specs.Outcome.{Gives};
ghost use Rattle.gmpl_functions.specs.Amounts.{sum_of, product_of, ratio_of, negative_of, number_in, form_in};
ghost use Rattle.gmpl_functions.specs.declared.amount.Amount.TheVariants as amounts;

use crate::form::Form;
use crate::quotient;
use crate::scaling::Scaling;
use crate::terms::Sign;
use fraction::Frac;
use gmpl_value::EvalFault;
use std::alloc::{AllocError, Global};

/// A number, or a linear form.
#[derive(Drop)]
pub enum Amount {
    Number(Frac),
    Form(Form),
}

impl Amount {
    /// The number. `Nonlinear` for a form: no operator but those below takes one.
    pub fn number(&self) -> Result<Frac, EvalFault>
        ensures { result ≡ number_in self.now }
    {
        match self {
            Amount::Number(number) => Ok(*number),
            Amount::Form(_) => Err(EvalFault::Nonlinear),
        }
    }

    /// The form, where a number is a form without terms.
    pub fn into_form(self, alloc: Global) -> Result<Form, AllocError>
        ensures { IfOk result (λ made. made ≡ form_in self) }
    {
        match self {
            Amount::Number(number) => Form::number(alloc, number),
            Amount::Form(form) => Ok(form),
        }
    }

    /// The sum or the difference: of two numbers a number, else a form.
    pub fn combined(self, alloc: Global, sign: Sign, other: Amount) -> Result<Amount, EvalFault>
        ensures { Gives result (sum_of sign self other) }
    {
        match self {
            Amount::Number(number) => number_combined(alloc, number, sign, other),
            Amount::Form(form) => form_combined(alloc, form, sign, other),
        }
    }

    /// The product. `Nonlinear` for two forms.
    pub fn times(self, other: Amount) -> Result<Amount, EvalFault>
        ensures { Gives result (product_of self other) }
    {
        match self {
            Amount::Number(number) => number_times(number, other),
            Amount::Form(form) => form_times(form, other),
        }
    }

    /// The quotient. `Nonlinear` where the divisor is a form.
    pub fn over(self, other: Amount) -> Result<Amount, EvalFault>
        ensures { Gives result (ratio_of self other) }
    {
        match other {
            Amount::Number(divisor) => self.over_number(divisor),
            Amount::Form(_) => Err(EvalFault::Nonlinear),
        }
    }

    fn over_number(self, divisor: Frac) -> Result<Amount, EvalFault>
        ensures { Gives result (ratio_of self (amounts.Number divisor)) }
    {
        match self {
            Amount::Number(number) => Ok(Amount::Number(quotient(number, divisor)?)),
            Amount::Form(form) => Ok(Amount::Form(form.scaled(&Scaling::Over(divisor))?)),
        }
    }

    /// The negative.
    pub fn negated(self) -> Result<Amount, EvalFault>
        ensures { Gives result (negative_of self) }
    {
        match self {
            Amount::Number(number) => Ok(Amount::Number(number.neg())),
            Amount::Form(form) => Ok(Amount::Form(form.scaled(&Scaling::Negated)?)),
        }
    }
}

fn number_combined(
    alloc: Global,
    number: Frac,
    sign: Sign,
    other: Amount,
) -> Result<Amount, EvalFault>
    ensures { Gives result (sum_of sign (amounts.Number number) other) }
{
    match other {
        Amount::Number(other) => Ok(Amount::Number(sign.applied(number, other)?)),
        Amount::Form(other) => {
            let form = Form::number(alloc, number)?;
            Ok(Amount::Form(form.combined(alloc, sign, &other)?))
        }
    }
}

fn form_combined(alloc: Global, form: Form, sign: Sign, other: Amount) -> Result<Amount, EvalFault>
    ensures { Gives result (sum_of sign (amounts.Form form) other) }
{
    match other {
        Amount::Number(number) => Ok(Amount::Form(form.shifted(sign, number)?)),
        Amount::Form(other) => Ok(Amount::Form(form.combined(alloc, sign, &other)?)),
    }
}

fn number_times(number: Frac, other: Amount) -> Result<Amount, EvalFault>
    ensures { Gives result (product_of (amounts.Number number) other) }
{
    match other {
        Amount::Number(other) => Ok(Amount::Number(number.mul(other)?)),
        Amount::Form(form) => Ok(Amount::Form(form.scaled(&Scaling::Of(number))?)),
    }
}

fn form_times(form: Form, other: Amount) -> Result<Amount, EvalFault>
    ensures { Gives result (product_of (amounts.Form form) other) }
{
    match other {
        Amount::Number(number) => Ok(Amount::Form(form.scaled(&Scaling::By(number))?)),
        Amount::Form(_second) => Err(EvalFault::Nonlinear),
    }
}
