// The prices of all variables, as steps change them.
use fraction::Frac;
use sparse_factors::{
    Scaled, Stop, at, filled, fused, number_at, product, put, quotient, sum, whole, whole_part,
    zeros,
};
use std::alloc::Global;

// How prices are kept.
#[derive(Clone, Copy, PartialEq, Eq)]
enum Form {
    // as fractions
    Plain,
    // as whole numbers over one denominator: hardly a greatest common divisor is found where they change
    Whole,
}

/// The prices of all variables.
#[derive(Drop)]
pub(crate) struct Prices {
    form: Form,
    // whether they may be put over one denominator
    may_join: bool,
    numbers: Vec<Frac>,
    scaled: Scaled,
    // those over one denominator as they were before a step, and the denominator
    kept: Vec<i128>,
    kept_scale: i128,
}

/// A step as prices see it: what becomes basic, what rests then, unless its price is not kept, and the numbers of the leaving row,
/// times its scale.
#[derive(Clone, Copy)]
pub(crate) struct Exchange<'a> {
    pub enters: usize,
    pub leaves: Option<usize>,
    pub touched: &'a [usize],
    pub entries: &'a [Frac],
    pub scale: Frac,
}

impl Prices {
    /// So many zeros.
    pub(crate) fn zeros(alloc: Global, count: usize) -> Result<Prices, Stop> {
        Ok(Prices {
            form: Form::Plain,
            may_join: false,
            numbers: zeros(alloc, count)?,
            scaled: Scaled::zeros(alloc, count)?,
            kept: filled(alloc, count, 0)?,
            kept_scale: 1,
        })
    }

    // ---- one of them

    /// What scaled prices are multiplied with.
    pub(crate) fn scale(&self) -> Frac {
        if self.form == Form::Whole {
            whole(self.scaled.scale()).unwrap_or(Frac::one())
        } else {
            Frac::one()
        }
    }

    /// A price times the scale.
    #[inline(always)]
    pub(crate) fn scaled(&self, v: usize) -> Frac {
        if self.form == Form::Whole {
            self.whole_at(v)
        } else {
            number_at(&self.numbers, v)
        }
    }

    #[inline(never)]
    fn whole_at(&self, v: usize) -> Frac {
        whole(self.scaled.number(v)).unwrap_or(Frac::zero())
    }

    /// A price.
    pub(crate) fn get(&self, v: usize) -> Frac {
        if self.form == Form::Whole {
            fraction(self.scaled.number(v), self.scaled.scale()).unwrap_or(Frac::zero())
        } else {
            number_at(&self.numbers, v)
        }
    }

    // ---- all of them

    /// Takes these prices, which may be put over one denominator later.
    pub(crate) fn become_plain(&mut self, numbers: Vec<Frac>) {
        self.form = Form::Plain;
        self.may_join = true;
        self.numbers = numbers;
    }

    /// Adds a number to a price; then all are fractions.
    pub(crate) fn add(&mut self, v: usize, number: Frac) -> Result<(), Stop> {
        self.split()?;
        let price = sum(number_at(&self.numbers, v), number)?;
        put(&mut self.numbers, v, price);
        Ok(())
    }

    /// Sets a price to 0; then all are fractions.
    pub(crate) fn clear(&mut self, v: usize) -> Result<(), Stop> {
        self.split()?;
        put(&mut self.numbers, v, Frac::zero());
        Ok(())
    }

    /// Puts them over one denominator, where that may be done and fits, and many of them are no whole numbers.
    pub(crate) fn join(&mut self) {
        if self.may_join
            && self.form == Form::Plain
            && self.are_broken()
            && self.scaled.become_numbers(&self.numbers).is_ok()
        {
            self.form = Form::Whole;
        }
    }

    // A quarter of those other than 0 are no whole numbers.
    fn are_broken(&self) -> bool {
        let mut all: usize = 0;
        let mut broken: usize = 0;
        for number in &self.numbers {
            if !number.is_zero() {
                all = all.saturating_add(1);
            }
            if !number.is_whole() {
                broken = broken.saturating_add(1);
            }
        }
        broken > all / 4
    }

    /// Keeps them as fractions from now on.
    pub(crate) fn stay_plain(&mut self) -> Result<(), Stop> {
        self.may_join = false;
        self.split()
    }

    // Makes fractions of them.
    fn split(&mut self) -> Result<(), Stop> {
        if self.form == Form::Whole {
            self.keep();
            self.split_kept()?;
        }
        Ok(())
    }

    fn keep(&mut self) {
        self.kept_scale = self.scaled.scale();
        for v in 0..self.kept.len() {
            self.kept[v] = self.scaled.number(v);
        }
    }

    // Makes fractions of them as they were kept.
    fn split_kept(&mut self) -> Result<(), Stop> {
        self.form = Form::Plain;
        for v in 0..self.numbers.len() {
            self.numbers[v] = fraction(at(&self.kept, v, 0), self.kept_scale)?;
        }
        Ok(())
    }

    /// All prices, as fractions.
    pub(crate) fn fractions(&self, alloc: Global) -> Result<Vec<Frac>, Stop> {
        if self.form == Form::Whole {
            self.scaled.fractions(alloc)
        } else {
            Ok(self.numbers.to_vec(alloc)?)
        }
    }

    // ---- a step

    /// Changes the prices over one denominator where a variable becomes basic and another one rests, and tells that it did. Else they
    /// are fractions, as they were: from now on, where they do not fit over one denominator any more.
    pub(crate) fn exchange_over_one(&mut self, step: &Exchange<'_>) -> Result<bool, Stop> {
        if self.form == Form::Plain {
            return Ok(false);
        }
        self.keep();
        if !step.is_whole() {
            self.split_kept()?;
            return Ok(false);
        }
        match self.exchange_whole(step) {
            Err(Stop::NoFit) => {
                self.may_join = false;
                self.split_kept()?;
                Ok(false)
            }
            Err(stop) => Err(stop),
            Ok(()) => Ok(true),
        }
    }

    fn exchange_whole(&mut self, step: &Exchange<'_>) -> Result<(), Stop> {
        let pivot = whole_part(number_at(step.entries, step.enters))?;
        let share = self.scaled.divided(step.enters, pivot)?;
        self.take_off_all(step, share)?;
        self.scaled.write(step.enters, 0);
        if let Some(out) = step.leaves {
            self.scaled.write(out, 0);
            self.scaled.take_off(out, whole_part(step.scale)?, share)?;
        }
        Ok(())
    }

    // Takes the entries, so many times, off the prices of their variables.
    fn take_off_all(&mut self, step: &Exchange<'_>, share: i128) -> Result<(), Stop> {
        if share == 0 {
            return Ok(());
        }
        for v in step.touched {
            let entry = number_at(step.entries, *v);
            if !entry.is_zero() {
                self.scaled.take_off(*v, share, whole_part(entry)?)?;
            }
        }
        Ok(())
    }

    /// Changes prices that are fractions in the same way.
    pub(crate) fn exchange_plain(&mut self, step: &Exchange<'_>) -> Result<(), Stop> {
        let price = number_at(&self.numbers, step.enters);
        let pivot = number_at(step.entries, step.enters);
        let factor = price_factor(price, pivot, step.scale)?;
        self.add_all(step, factor)?;
        put(&mut self.numbers, step.enters, Frac::zero());
        if let Some(out) = step.leaves {
            put(&mut self.numbers, out, product(factor, step.scale)?);
        }
        Ok(())
    }

    // Adds the entries, so many times, to the prices of their variables.
    fn add_all(&mut self, step: &Exchange<'_>, factor: Frac) -> Result<(), Stop> {
        if factor.is_zero() {
            return Ok(());
        }
        for v in step.touched {
            let entry = number_at(step.entries, *v);
            if *v != step.enters && !entry.is_zero() {
                let changed = fused(factor, entry, number_at(&self.numbers, *v))?;
                put(&mut self.numbers, *v, changed);
            }
        }
        Ok(())
    }
}

impl Exchange<'_> {
    // The row's numbers are whole.
    fn is_whole(&self) -> bool {
        if !self.scale.is_whole() {
            return false;
        }
        for v in self.touched {
            if !number_at(self.entries, *v).is_whole() {
                return false;
            }
        }
        true
    }
}

// A number over a scale.
fn fraction(number: i128, scale: i128) -> Result<Frac, Stop> {
    if number == 0 {
        Ok(Frac::zero())
    } else {
        quotient(whole(number)?, whole(scale)?)
    }
}

/// Minus the price by the entry: how the prices change with the entries. The price of what rests then, which is as much times the
/// scale, fits too.
pub(crate) fn price_factor(price: Frac, entry: Frac, scale: Frac) -> Result<Frac, Stop> {
    if price.is_zero() {
        return Ok(price);
    }
    let factor = quotient(price, entry)?.neg();
    product(factor, scale)?;
    Ok(factor)
}
