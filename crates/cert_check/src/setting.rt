// What weights stand on at a node.
ghost use Rattle.std.specs.Prelude.{◌≡◌};
ghost use Rattle.std.specs.Option.{option_map};
ghost use Rattle.verdicts.specs.Proves.{upper_under, way_get, narrowed, taken};
ghost use Rattle.certificate.specs.Values.{version_of};
ghost use Rattle.cert_check.specs.Sums.{lower_answer};
ghost use Rattle.cert_check.specs.Walk.{sides_to, turn_side};

use crate::bounds::{own_lower, own_upper};
use crate::by_column::ByColumn;
use crate::way::Way;
use certificate::{Derived, Turn, Version};
use fraction::{Frac, NoFit};
use instance::Instance;
use std::alloc::Global;
use std::marker::Model;

// The version, the problem, the derived rows that weights may name, and the way to a node of a tree.
#[derive(Drop)]
pub(crate) struct Setting<'s, 't> {
    version: Version,
    problem: &'s ByColumn<'s>,
    derived: &'s [Derived],
    way: &'s Way<'t>,
}

impl<'s, 't> Model for Setting<'s, 't> {
    ghost use Rattle.certificate.specs.Values.{version_of};
    ghost use Rattle.cert_check.specs.Setting.{Setting as SettingOf};
    ghost use Rattle.cert_check.specs.Walk.{sides_to};

    ghost Value = { SettingOf };

    ghost view = { λ s. record { version = version_of s.version; problem = s.problem.now; derived = s.derived.now; sides = sides_to s.way.now } };
}

impl<'s, 't> Setting<'s, 't> {
    // A node of a tree.
    pub(crate) fn of_node(
        version: Version,
        problem: &'s ByColumn<'s>,
        derived: &'s [Derived],
        way: &'s Way<'t>,
    ) -> Self
        ensures { result ≡ record { version = version_of version; problem = problem.now; derived = derived.now; sides = sides_to way.now } }
    {
        Setting {
            version,
            problem,
            derived,
            way,
        }
    }

    // The version.
    pub(crate) fn version(&self) -> Version
        ensures { version_of result ≡ self.now.version }
    {
        self.version
    }

    // The problem.
    pub(crate) fn problem(&self) -> &'s Instance
        ensures { result.now ≡ self.now.problem }
    {
        self.problem.problem()
    }

    // Where memory for totals is taken from.
    pub(crate) fn alloc(&self) -> Global {
        self.problem.alloc()
    }

    // The problem with its entries by column.
    pub(crate) fn by_column(&self) -> &'s ByColumn<'s>
        ensures { result.now ≡ self.now.problem }
    {
        self.problem
    }

    // The derived rows.
    pub(crate) fn derived(&self) -> &'s [Derived]
        ensures { result.now ≡ self.now.derived }
    {
        self.derived
    }

    // The lower bound of a column under the splits that narrow bounds, or the sum P + 1 that does not fit.
    pub(crate) fn lower(&self, column: u32) -> Result<Option<Frac>, NoFit>
        ensures { result ≡ lower_answer self.now.problem (narrowed self.now.version self.now.sides) column }
    {
        match self.version {
            Version::One => self.way.lower(self.problem(), column),
            Version::Two => Ok(own_lower(self.problem(), column)),
        }
    }

    // The upper bound of a column under the splits that narrow bounds.
    pub(crate) fn upper(&self, column: u32) -> Option<Frac>
        ensures { result ≡ upper_under self.now.problem (narrowed self.now.version self.now.sides) column }
    {
        match self.version {
            Version::One => self.way.upper(self.problem(), column),
            Version::Two => own_upper(self.problem(), column),
        }
    }

    // The turn at the i-th split from the root, where weights may name splits.
    pub(crate) fn turn(&self, i: u32) -> Option<Turn<'t>>
        ensures { option_map turn_side result ≡ way_get (taken self.now.version self.now.sides) i }
    {
        match self.version {
            Version::One => None,
            Version::Two => self.way.turn(i as usize),
        }
    }
}
