// Lists of forms.
ghost use Rattle.std.specs.Prelude.{◌≡◌, [], ◌∷◌, ◌++◌, IsTrue, OnOk, OnErr};
ghost use Rattle.std.specs.List.{AllByRecursion};
ghost use Rattle.instance.specs.WellFormed.{are_entries};
ghost use Rattle.certificate.specs.Written.{count_max};

use instance::Entries;
use std::alloc::{AllocError, Global};
use std::marker::Model;

/// Forms over the columns of a problem, each with its entries in ascending order of column.
#[derive(Drop)]
pub struct Forms {
    forms: Vec<Entries>,
}

impl Model for Forms {
    ghost use Rattle.std.specs.Prelude.{List, IsTrue};
    ghost use Rattle.std.specs.List.{AllByRecursion};
    ghost use Rattle.milp.specs.Form.{Entry};
    ghost use Rattle.instance.specs.WellFormed.{are_entries};
    ghost use Rattle.certificate.specs.Written.{count_max};

    ghost Value = { List (List Entry) };

    ghost view = { λ f. f.forms.items };

    ghost invariant = { λ f. AllByRecursion (λ form. IsTrue (are_entries count_max form)) f.forms.items };
}

impl Forms {
    /// No forms.
    pub fn new(alloc: Global) -> Self
        ensures { result ≡ [] }
    {
        Forms {
            forms: Vec::new(alloc),
        }
    }

    /// One more form, at the end. After an error nothing has changed.
    pub fn push(&mut self, form: Entries) -> Result<(), AllocError>
        requires { IsTrue (are_entries count_max form) }
        ensures ok { OnOk result (self.new ≡ self.old ++ form ∷ []) }
        ensures kept { OnErr result (self.new ≡ self.old) }
    {
        self.forms.push(form)?;
        Ok(())
    }

    /// The forms, for reading, each in ascending order of column.
    pub fn as_slice(&self) -> &[Entries]
        ensures forms { result.now ≡ self.now }
        ensures ascending { AllByRecursion (λ form. IsTrue (are_entries count_max form)) self.now }
    {
        &self.forms
    }
}
