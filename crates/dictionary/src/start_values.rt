// The point at the start of a run.
ghost use Rattle.std.specs.Prelude.{length, ◌≡◌, IfOk, OnOk, IfErr};
ghost use Rattle.basis.specs.System.{IsSystem};
ghost use Rattle.basis.specs.Bland.{first_number};
ghost use Rattle.dictionary.specs.Sums.{IsStartFault, AreLonger, AreFirstNumbers, AreStartNumbers};

use crate::sums::form_value;
use crate::system::{Bounds, System};
use fraction::{Frac, NoFit};
use std::alloc::{AllocError, Global};

/// A number for each variable: each column's lower bound, else its upper one, else 0, and any number for the forms.
pub fn first_values(alloc: Global, system: &System) -> Result<Vec<Frac>, AllocError>
    ensures { IfOk result (λ values. AreFirstNumbers system.now values.items) }
{
    let columns = system.columns();
    let mut values = Vec::new(alloc);
    for v in 0..columns {
        values.push(first_value(system.bounds(v)))?;
    }
    lengthen(&mut values, system.forms().len())?;
    Ok(values)
}

fn first_value(bounds: Bounds) -> Frac
    ensures { result ≡ first_number bounds.lower bounds.upper }
{
    match bounds.lower {
        Some(lower) => lower,
        None => match bounds.upper {
            Some(upper) => upper,
            None => Frac::zero(),
        },
    }
}

fn lengthen(values: &mut Vec<Frac>, count: usize) -> Result<(), AllocError>
    ensures { OnOk result (AreLonger values.old.items count values.new.items) }
{
    for _k in 0..count {
        values.push(Frac::zero())?;
    }
    Ok(())
}

/// Gives the variable of each form its value, from the columns.
pub fn set_forms(values: &mut [Frac], system: &System) -> Result<(), NoFit>
    requires { AreFirstNumbers system.now values.old }
    ensures system { IsSystem system.now }
    ensures ok { OnOk result (AreStartNumbers system.now values.new) }
    ensures err { IfErr result (IsStartFault system.now) }
{
    let columns = system.columns();
    let forms = system.forms();
    for k in 0..forms.len() {
        values[columns + k] = form_value(forms[k].as_slice(), values)?;
    }
    Ok(())
}
