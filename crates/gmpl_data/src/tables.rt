// What data give to the objects of a model.
ghost use Rattle.std.specs.Prelude.{◌≡◌, []};
ghost use Rattle.gmpl_data.specs.Given as spec;
ghost use Rattle.std.specs.Option.{option_copied};

use gmpl_members::{Members, Value};
use gmpl_resolved::{Numbered, NumberedStep};
use gmpl_solution::Solution;
use gmpl_value::{SetValue, Symbol, Tuple};
use sqlite_items::Items;
use std::alloc::Global;

/// What data give to one object.
#[derive(Drop)]
pub struct Given {
    /// The values of its members: of a parameter symbols, of a set its elements.
    pub values: Members,
    /// The members of a set to which more elements are given than a set may have, by their subscripts.
    pub overfull: SetValue,
    /// The symbol of a parameter's members that are given none. It goes before the `default` of the model.
    pub default: Option<Symbol>,
}

/// What data give, by the places of the objects: an object without an entry is given nothing.
#[derive(Drop)]
pub struct DataTables {
    pub objects: Items<Given>,
}

impl DataTables {
    /// What no data give.
    pub fn empty(alloc: Global) -> DataTables
        ensures { result.objects ≡ [] }
    {
        DataTables {
            objects: Items::new(alloc),
        }
    }
}

/// A model whose names are resolved, with what data give to its objects.
#[derive(Drop)]
pub struct LoadedModel {
    /// The statements that declare in order, each behind its steps.
    pub statements: Items<Numbered>,
    /// The steps behind the last of them.
    pub steps: Items<NumberedStep>,
    pub tables: DataTables,
    /// Behind `solve`: the numbers of its members at the solution. There variables are numbers and no forms.
    pub solution: Option<Solution>,
}

impl LoadedModel {
    /// The value that data give to a member of the object at this place.
    pub fn value(&self, place: usize, subscripts: &Tuple) -> Option<&Value>
        ensures { option_copied result ≡ spec.value_given self.now place subscripts.now }
    {
        match self.tables.objects.get(place) {
            None => None,
            Some(given) => given.values.get(subscripts),
        }
    }

    /// Whether data give a member of the set at this place more elements than a set may have.
    pub fn is_overfull(&self, place: usize, subscripts: &Tuple) -> bool
        ensures { result ≡ spec.is_overfull self.now place subscripts.now }
    {
        match self.tables.objects.get(place) {
            None => false,
            Some(given) => given.overfull.contains(subscripts),
        }
    }

    /// The default that data give to the parameter at this place.
    pub fn default(&self, place: usize) -> Option<&Symbol>
        ensures { option_copied result ≡ spec.default_given self.now place }
    {
        match self.tables.objects.get(place) {
            None => None,
            Some(given) => given.default.as_ref(),
        }
    }

    /// The statement that declares the object at this place.
    pub fn statement(&self, place: usize) -> Option<&Numbered>
        ensures { option_copied result ≡ spec.statement_at self.now place }
    {
        self.statements.get(place)
    }
}
