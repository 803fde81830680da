// Linear forms.
ghost use Rattle.std.specs.Prelude.{◌≡◌, [], ◌∷◌, IfOk, length, map, slice_get};
ghost use Rattle.std.specs.List.{IsDistinct};
ghost use Rattle.std.specs.Option.{option_map};
ghost use Rattle.rational.specs.Rational.{one_ℚ, zero_ℚ};
ghost use Rattle.gmpl_value.specs.Outcome.{Gives, Follows};
ghost use Rattle.gmpl_functions.specs.Linear.{Linear, linear, coefficient_of, terms_seen, variable_eq};
ghost use Rattle.gmpl_functions.specs.Scalings.{scaled, scaled_terms};
ghost use Rattle.gmpl_functions.specs.Sums.{combined, put_all, put_found};

use crate::form_terms::FormTerms;
use crate::scaling::Scaling;
use crate::terms::{Sign, coefficient_at, put, set_coefficient};
use crate::variable::Variable;
use fraction::Frac;
use gmpl_value::EvalFault;
use indexmap::IndexMap;
use std::alloc::{AllocError, Global};
use std::marker::Model;
use std::mem::replace;

/// A linear form: members with their coefficients, each member once, in the order of first mention, and a constant. A
/// coefficient may be 0. Clauses see the list of its terms and its constant. It is one pointer, so that values move cheaply.
#[derive(Drop)]
pub struct Form {
    parts: Box<Parts>,
}

#[derive(Drop)]
struct Parts {
    terms: FormTerms,
    constant: Frac,
}

impl Model for Form {
    ghost use Rattle.gmpl_functions.specs.Linear.{Linear, linear, terms_seen};

    ghost Value = { Linear };

    ghost view = { λ f. linear (terms_seen f.parts.value.terms) f.parts.value.constant };
}

impl Form {
    fn of_parts(alloc: Global, terms: FormTerms, constant: Frac) -> Result<Form, AllocError>
        ensures { IfOk result (λ made. made ≡ linear (terms_seen terms) constant) }
    {
        let parts = Box::new(alloc, Parts { terms, constant })?;
        Ok(Form { parts })
    }

    /// The form of a number.
    pub fn number(alloc: Global, constant: Frac) -> Result<Form, AllocError>
        ensures { IfOk result (λ made. made ≡ linear [] constant) }
    {
        Form::of_parts(alloc, FormTerms::Many(IndexMap::new(alloc)), constant)
    }

    /// The form of a member, with the coefficient 1.
    pub fn variable(alloc: Global, variable: Variable) -> Result<Form, AllocError>
        ensures { IfOk result (λ made. made ≡ linear ((variable, one_ℚ) ∷ []) zero_ℚ) }
    {
        Form::of_parts(alloc, FormTerms::One(variable, Frac::one()), Frac::zero())
    }

    /// The constant.
    pub fn constant(&self) -> Frac
        ensures { result ≡ self.now.constant }
    {
        self.parts.constant
    }

    /// The number of terms, those with the coefficient 0 too.
    pub fn len(&self) -> usize
        ensures count { result ≡ length self.now.terms }
        ensures distinct { IsDistinct variable_eq (map (λ t. t.0) self.now.terms) }
    {
        self.parts.terms.len()
    }

    /// The term at a place.
    pub fn term(&self, place: usize) -> Option<(&Variable, &Frac)>
        ensures { option_map (λ t. (t.0.now, t.1.now)) result ≡ slice_get self.now.terms place }
    {
        self.parts.terms.term(place)
    }

    /// The coefficient of a member, and 0 where the form has none.
    pub fn coefficient(&self, variable: &Variable) -> Frac
        ensures { result ≡ coefficient_of self.now.terms variable.now }
    {
        self.parts.terms.coefficient(variable)
    }

    /// Adds another form or takes it off: its terms in order, and then the constant. A new member stands at the end.
    pub fn combine(&mut self, alloc: Global, sign: Sign, other: &Form) -> Result<(), EvalFault>
        ensures { Follows result self.new (combined sign self.old other.now) }
    {
        put_kept(alloc, &mut self.parts.terms, sign, other)?;
        self.parts.constant = sign.applied(self.parts.constant, other.constant())?;
        Ok(())
    }

    /// Adds a number or takes it off.
    pub fn shift(&mut self, sign: Sign, number: Frac) -> Result<(), EvalFault>
        ensures { Follows result self.new (combined sign self.old (linear [] number)) }
    {
        self.parts.constant = sign.applied(self.parts.constant, number)?;
        Ok(())
    }

    /// Scales each coefficient, zeros too, and then the constant.
    pub fn scale(&mut self, scaling: &Scaling) -> Result<(), EvalFault>
        ensures { Follows result self.new (scaled scaling.now self.old) }
    {
        scale_kept(&mut self.parts.terms, scaling)?;
        self.parts.constant = scaling.applied(self.parts.constant)?;
        Ok(())
    }

    /// The form with another added or taken off.
    pub fn combined(self, alloc: Global, sign: Sign, other: &Form) -> Result<Form, EvalFault>
        ensures { Gives result (combined sign self other.now) }
    {
        let mut form = self;
        form.combine(alloc, sign, other)?;
        Ok(form)
    }

    /// The form with a number added or taken off.
    pub fn shifted(self, sign: Sign, number: Frac) -> Result<Form, EvalFault>
        ensures { Gives result (combined sign self (linear [] number)) }
    {
        let mut form = self;
        form.shift(sign, number)?;
        Ok(form)
    }

    /// The form with each coefficient, zeros too, and then the constant scaled.
    pub fn scaled(self, scaling: &Scaling) -> Result<Form, EvalFault>
        ensures { Gives result (scaled scaling.now self) }
    {
        let mut form = self;
        form.scale(scaling)?;
        Ok(form)
    }
}

// One term becomes a map; a map stays where it is.
fn put_kept(alloc: Global, terms: &mut FormTerms, sign: Sign, other: &Form) -> Result<(), EvalFault>
    ensures { Follows result (terms_seen terms.new) (put_all sign (terms_seen terms.old) other.now.terms) }
{
    if let FormTerms::Many(terms) = terms {
        return put_all(alloc, terms, sign, other);
    }
    let none = FormTerms::Many(IndexMap::new(alloc));
    let mut map = replace(terms, none).into_map(alloc)?;
    put_all(alloc, &mut map, sign, other)?;
    *terms = FormTerms::Many(map);
    Ok(())
}

fn put_all(
    alloc: Global,
    terms: &mut IndexMap<Variable, Frac>,
    sign: Sign,
    other: &Form,
) -> Result<(), EvalFault>
    ensures { Follows result terms.new.entries (put_all sign terms.old.entries other.now.terms) }
{
    for place in 0..other.len() {
        put_term(alloc, terms, sign, other, place)?;
    }
    Ok(())
}

fn put_term(
    alloc: Global,
    terms: &mut IndexMap<Variable, Frac>,
    sign: Sign,
    other: &Form,
    place: usize,
) -> Result<(), EvalFault>
    ensures { Follows result terms.new.entries (put_found sign terms.old.entries (slice_get other.now.terms place)) }
{
    match other.term(place) {
        Some((variable, change)) => put(alloc, terms, sign, variable, *change),
        None => Ok(()),
    }
}

fn scale_kept(terms: &mut FormTerms, scaling: &Scaling) -> Result<(), EvalFault>
    ensures { Follows result (terms_seen terms.new) (scaled_terms scaling.now (terms_seen terms.old)) }
{
    match terms {
        FormTerms::One(_, coefficient) => {
            *coefficient = scaling.applied(*coefficient)?;
            Ok(())
        }
        FormTerms::Many(terms) => scale_terms(terms, scaling),
    }
}

fn scale_terms(terms: &mut IndexMap<Variable, Frac>, scaling: &Scaling) -> Result<(), EvalFault>
    ensures { Follows result terms.new.entries (scaled_terms scaling.now terms.old.entries) }
{
    for place in 0..terms.len() {
        let scaled = scaling.applied(coefficient_at(terms, place))?;
        set_coefficient(terms, place, scaled);
    }
    Ok(())
}
