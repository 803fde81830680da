// Tables of members.
ghost use Rattle.std.specs.Prelude.{◌≡◌, [], map, length, option_copied, slice_get, IfOk, IfErr, OnErr, OnOk};
ghost use Rattle.std.specs.List.{IsDistinct};
ghost use Rattle.std.specs.Option.{option_map};
ghost use Rattle.gmpl_value.specs.SymbolEquality.{tuple_eq};
ghost use Rattle.gmpl_members.specs.Table.{Table, value_of, with_value};

use crate::value::Value;
use gmpl_value::Tuple;
use indexmap::IndexMap;
use std::alloc::Global;
use std::marker::Model;

/// A table from the subscripts of members to their values, in the order in which members were first given one. Clauses see the
/// list of pairs.
#[derive(Drop)]
pub struct Members {
    values: IndexMap<Tuple, Value>,
}

impl Model for Members {
    ghost use Rattle.gmpl_members.specs.Table.{Table};

    ghost Value = { Table };

    ghost view = { λ m. m.values.entries };
}

impl Members {
    /// The table without a member.
    pub fn new(alloc: Global) -> Members
        ensures { result ≡ [] }
    {
        Members {
            values: IndexMap::new(alloc),
        }
    }

    /// The number of members.
    pub fn len(&self) -> usize
        ensures count { result ≡ length self.now }
        ensures distinct { IsDistinct tuple_eq (map (λ e. e.0) self.now) }
    {
        self.values.len()
    }

    /// The value of the member with these subscripts.
    pub fn get(&self, subscripts: &Tuple) -> Option<&Value>
        ensures { option_copied result ≡ value_of self.now subscripts.now }
    {
        self.values.get(subscripts)
    }

    /// The member at a place, with its value.
    pub fn entry(&self, place: usize) -> Option<(&Tuple, &Value)>
        ensures { option_map (λ e. (e.0.now, e.1.now)) result ≡ slice_get self.now place }
    {
        self.values.get_index(place)
    }

    /// Gives a member a value, in place of the one that it has. Subscripts and value come back where memory is wanting.
    pub fn insert(&mut self, subscripts: Tuple, value: Value) -> Result<(), (Tuple, Value)>
        ensures ok { OnOk result (self.new ≡ with_value self.old subscripts value) }
        ensures kept { OnErr result (self.new ≡ self.old) }
        ensures returned { IfErr result (λ refused. refused ≡ (subscripts, value)) }
    {
        match self.values.insert(subscripts, value) {
            Ok(_) => Ok(()),
            Err(refused) => Err(refused.value),
        }
    }

    /// Gives a member a value, in place of the one that it has, and hands that one out. Subscripts and value come back where
    /// memory is wanting.
    pub fn replace(
        &mut self,
        subscripts: Tuple,
        value: Value,
    ) -> Result<Option<Value>, (Tuple, Value)>
        ensures ok { OnOk result (self.new ≡ with_value self.old subscripts value) }
        ensures replaced { IfOk result (λ before. before ≡ value_of self.old subscripts) }
        ensures kept { OnErr result (self.new ≡ self.old) }
        ensures returned { IfErr result (λ refused. refused ≡ (subscripts, value)) }
    {
        match self.values.insert(subscripts, value) {
            Ok(before) => Ok(before),
            Err(refused) => Err(refused.value),
        }
    }
}
