// Columns of a declaration.
ghost use Rattle.std.specs.Prelude.{◌≡◌, true};
ghost use Rattle.model_text.specs.Columns.{new_column};

use fraction::Frac;
use std::marker::Model;

/// A column, as far as it is declared. Clauses see a problem's column.
#[derive(Drop)]
pub struct DeclaredColumn<'a> {
    name: &'a str,
    lower: Option<Frac>,
    upper: Option<Frac>,
    integer: bool,
}

impl<'a> Model for DeclaredColumn<'a> {
    ghost use Rattle.milp.specs.Problem.{Column};

    ghost Value = { Column };

    ghost view = { λ c. record { name = c.name.now; lower = c.lower; upper = c.upper; integer = c.integer } };
}

impl<'a> DeclaredColumn<'a> {
    /// A column at least 0.
    pub fn new(name: &'a str, integer: bool) -> Self
        ensures { result ≡ new_column name.now integer }
    {
        DeclaredColumn {
            name,
            lower: Some(Frac::zero()),
            upper: None,
            integer,
        }
    }

    /// Another of the same name, bounds and kind.
    pub fn copy(&self) -> Self
        ensures { result ≡ self.now }
    {
        DeclaredColumn {
            name: self.name,
            lower: self.lower,
            upper: self.upper,
            integer: self.integer,
        }
    }

    /// Its name.
    pub fn name(&self) -> &'a str
        ensures { result.now ≡ self.now.name }
    {
        self.name
    }

    /// The number that it is at least.
    pub fn lower(&self) -> Option<Frac>
        ensures { result ≡ self.now.lower }
    {
        self.lower
    }

    /// The number that it is at most.
    pub fn upper(&self) -> Option<Frac>
        ensures { result ≡ self.now.upper }
    {
        self.upper
    }

    /// It takes whole values alone.
    pub fn integer(&self) -> bool
        ensures { result ≡ self.now.integer }
    {
        self.integer
    }

    /// It is at least this, or has no lower bound.
    pub fn set_lower(&mut self, lower: Option<Frac>)
        ensures { self.new ≡ record self.old { lower = lower } }
    {
        self.lower = lower;
    }

    /// It is at most this, or has no upper bound.
    pub fn set_upper(&mut self, upper: Option<Frac>)
        ensures { self.new ≡ record self.old { upper = upper } }
    {
        self.upper = upper;
    }

    /// It takes whole values alone from now on.
    pub fn make_integer(&mut self)
        ensures { self.new ≡ record self.old { integer = true } }
    {
        self.integer = true;
    }
}
