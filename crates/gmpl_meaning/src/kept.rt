// What is kept.
ghost use Rattle.std.specs.Prelude.{◌≡◌, [], None, Ok, IfOk, IfSome, OnOk, OnErr, nat_eq, option_copied, true};
ghost use Rattle.std.specs.Map.{lookup};
ghost use Rattle.gmpl_data.specs.declared.tables.LoadedModel.{LoadedModel};
ghost use Rattle.gmpl_meaning.specs.Members.{member};
ghost use Rattle.gmpl_functions.specs.Linear.{variable_eq};
ghost use Rattle.gmpl_meaning.specs.Right.{AreRight, HasBounds, IsAlone, IsRight, anew, asked_eq, nothing_kept, value_seen, with_alone, with_bounds, with_value};

use crate::Bounds;
use crate::asked::Asked;
use crate::value::{Alone, KeptValue, again};
use gmpl_functions::Variable;
use gmpl_operations::Value;
use gmpl_value::Tuple;
use indexmap::IndexMap;
use std::alloc::{AllocError, Global};
use std::marker::Model;

// How many elements of sets, symbols, forms and bounds are kept at most.
const MOST_KEPT: usize = 8_000_000;

/// What is kept of a model, by what was asked for: values, and the bounds of variables' members. Clauses see the lists of pairs.
#[derive(Drop)]
pub struct Kept {
    values: IndexMap<Asked, KeptValue>,
    // Of members without subscripts, whose places are found sooner, at the height of the first demand. At other heights they are
    // among the values.
    alone: IndexMap<usize, Alone>,
    bounds: IndexMap<Variable, Bounds>,
    room: usize,
}

impl Model for Kept {
    ghost use Rattle.gmpl_meaning.specs.Right.{Table};

    ghost Value = { Table };

    ghost view = { λ k. record { values = k.values.entries; alone = k.alone.entries; bounds = k.bounds.entries } };
}

impl Kept {
    /// Nothing kept.
    pub fn new(alloc: Global) -> Kept
        ensures nothing { result ≡ nothing_kept }
        ensures right { (model : LoadedModel) → AreRight model result }
    {
        Kept {
            values: IndexMap::new(alloc),
            alone: IndexMap::new(alloc),
            bounds: IndexMap::new(alloc),
            room: MOST_KEPT,
        }
    }

    // ---- values

    // What is kept of this.
    fn get(&self, asked: &Asked) -> Option<&KeptValue>
        ensures { option_copied result ≡ lookup (asked_eq asked.now) self.now.values }
    {
        self.values.get(asked)
    }

    // What is kept of this is right.
    fn find(&self, asked: &Asked) -> Option<&KeptValue>
        ensures { (model : LoadedModel) → AreRight model self.now → IfSome result (λ value. IsRight model (asked.now, value.now)) }
    {
        self.get(asked)
    }

    fn insert(&mut self, asked: Asked, value: KeptValue) -> Result<(), AllocError>
        ensures ok { OnOk result (self.new ≡ with_value self.old asked value) }
        ensures err { OnErr result (self.new ≡ self.old) }
    {
        match self.values.insert(asked, value) {
            Ok(_) => Ok(()),
            Err(_) => Err(AllocError),
        }
    }

    /// The value that is kept of this, once more. Where memory is wanting for it, there is none.
    pub fn found(&self, alloc: Global, asked: &Asked) -> Option<KeptValue>
        ensures { (model : LoadedModel) → AreRight model self.now → IfSome result (λ value. IsRight model (asked.now, value)) }
    {
        match self.find(asked) {
            None => None,
            Some(value) => again(alloc, value),
        }
    }

    /// A value to share, which is kept where there is room for it.
    pub fn remember(
        &mut self,
        alloc: Global,
        asked: Asked,
        value: Value,
    ) -> Result<KeptValue, AllocError>
        ensures right { (model : LoadedModel) → AreRight model self.old → anew model asked ≡ Ok value → AreRight model self.new }
        ensures value { IfOk result (λ made. value_seen made ≡ value) }
    {
        let value = KeptValue::of(alloc, value)?;
        match again(alloc, &value) {
            None => {}
            Some(copy) => self.keep(asked, copy)?,
        }
        Ok(value)
    }

    // ---- members

    /// The value that is kept of a member without suffix, once more.
    pub fn member(
        &self,
        alloc: Global,
        place: usize,
        height: u32,
        subscripts: &Tuple,
    ) -> Option<KeptValue>
        ensures { (model : LoadedModel) → AreRight model self.now → IfSome result (λ value. member model height place None subscripts.now ≡ Ok (value_seen value)) }
    {
        match self.member_alone(alloc, place, height, subscripts) {
            Some(value) => Some(value),
            None => self.member_among(alloc, place, height, subscripts),
        }
    }

    // The same of a member that has a place of its own.
    fn member_alone(
        &self,
        alloc: Global,
        place: usize,
        height: u32,
        subscripts: &Tuple,
    ) -> Option<KeptValue>
        ensures { (model : LoadedModel) → AreRight model self.now → IfSome result (λ value. member model height place None subscripts.now ≡ Ok (value_seen value)) }
    {
        if subscripts.len() == 0 {
            self.found_alone(alloc, place, height)
        } else {
            None
        }
    }

    // The same of a member that is among the values.
    fn member_among(
        &self,
        alloc: Global,
        place: usize,
        height: u32,
        subscripts: &Tuple,
    ) -> Option<KeptValue>
        ensures { (model : LoadedModel) → AreRight model self.now → IfSome result (λ value. member model height place None subscripts.now ≡ Ok (value_seen value)) }
    {
        match subscripts.copied(alloc) {
            Err(_) => None,
            Ok(subscripts) => self.found(alloc, &Asked::Member(place, height, subscripts)),
        }
    }

    /// The value of a member without suffix to share, which is kept where there is room for it.
    pub fn remember_member(
        &mut self,
        alloc: Global,
        place: usize,
        height: u32,
        subscripts: &Tuple,
        value: Value,
    ) -> Result<KeptValue, AllocError>
        ensures right { (model : LoadedModel) → AreRight model self.old → member model height place None subscripts.now ≡ Ok value → AreRight model self.new }
        ensures value { IfOk result (λ made. value_seen made ≡ value) }
    {
        if self.is_first_alone(place, subscripts) {
            self.remember_alone(alloc, place, height, value)
        } else {
            self.remember_among(alloc, place, height, subscripts, value)
        }
    }

    fn remember_among(
        &mut self,
        alloc: Global,
        place: usize,
        height: u32,
        subscripts: &Tuple,
        value: Value,
    ) -> Result<KeptValue, AllocError>
        ensures right { (model : LoadedModel) → AreRight model self.old → member model height place None subscripts.now ≡ Ok value → AreRight model self.new }
        ensures value { IfOk result (λ made. value_seen made ≡ value) }
    {
        let subscripts = subscripts.copied(alloc)?;
        self.remember(alloc, Asked::Member(place, height, subscripts), value)
    }

    // ---- members without subscripts

    // A member without subscripts, where none of this object is kept.
    fn is_first_alone(&self, place: usize, subscripts: &Tuple) -> bool
        ensures { result ≡ true → subscripts.now ≡ [] }
    {
        if subscripts.len() != 0 {
            return false;
        }
        !self.alone.contains_key(&place)
    }

    fn get_alone(&self, place: usize) -> Option<&Alone>
        ensures { option_copied result ≡ lookup (nat_eq place) self.now.alone }
    {
        self.alone.get(&place)
    }

    // What is kept of this is right.
    fn find_alone(&self, place: usize) -> Option<&Alone>
        ensures { (model : LoadedModel) → AreRight model self.now → IfSome result (λ alone. IsAlone model (place, alone.now)) }
    {
        self.get_alone(place)
    }

    fn found_alone(&self, alloc: Global, place: usize, height: u32) -> Option<KeptValue>
        ensures { (model : LoadedModel) → AreRight model self.now → IfSome result (λ value. member model height place None [] ≡ Ok (value_seen value)) }
    {
        match self.find_alone(place) {
            None => None,
            Some(alone) => {
                if alone.height == height {
                    again(alloc, &alone.value)
                } else {
                    None
                }
            }
        }
    }

    fn insert_alone(&mut self, place: usize, alone: Alone) -> Result<(), AllocError>
        ensures ok { OnOk result (self.new ≡ with_alone self.old place alone) }
        ensures err { OnErr result (self.new ≡ self.old) }
    {
        match self.alone.insert(place, alone) {
            Ok(_) => Ok(()),
            Err(_) => Err(AllocError),
        }
    }

    fn remember_alone(
        &mut self,
        alloc: Global,
        place: usize,
        height: u32,
        value: Value,
    ) -> Result<KeptValue, AllocError>
        ensures right { (model : LoadedModel) → AreRight model self.old → member model height place None [] ≡ Ok value → AreRight model self.new }
        ensures value { IfOk result (λ made. value_seen made ≡ value) }
    {
        let value = KeptValue::of(alloc, value)?;
        match again(alloc, &value) {
            None => {}
            Some(copy) => self.keep_alone(
                place,
                Alone {
                    height,
                    value: copy,
                },
            )?,
        }
        Ok(value)
    }

    // Keeps a value, where there is room for it.
    fn keep_alone(&mut self, place: usize, alone: Alone) -> Result<(), AllocError>
        ensures { (model : LoadedModel) → AreRight model self.old → IsAlone model (place, alone) → AreRight model self.new }
    {
        let size = alone.value.size();
        if size > self.room {
            return Ok(());
        }
        self.room = self.room - size;
        self.insert_alone(place, alone)
    }

    // Keeps a value, where there is room for it.
    fn keep(&mut self, asked: Asked, value: KeptValue) -> Result<(), AllocError>
        ensures { (model : LoadedModel) → AreRight model self.old → IsRight model (asked, value) → AreRight model self.new }
    {
        let size = value.size();
        if size > self.room {
            return Ok(());
        }
        self.room = self.room - size;
        self.insert(asked, value)
    }

    // ---- bounds

    // What is kept of this member's bounds.
    fn get_bounds(&self, variable: &Variable) -> Option<&Bounds>
        ensures { option_copied result ≡ lookup (variable_eq variable.now) self.now.bounds }
    {
        self.bounds.get(variable)
    }

    /// The bounds that are kept of a variable's member.
    pub fn bounds(&self, variable: &Variable) -> Option<&Bounds>
        ensures { (model : LoadedModel) → AreRight model self.now → IfSome result (λ bounds. HasBounds model (variable.now, bounds.now)) }
    {
        self.get_bounds(variable)
    }

    fn insert_bounds(&mut self, variable: Variable, bounds: Bounds) -> Result<(), AllocError>
        ensures ok { OnOk result (self.new ≡ with_bounds self.old variable bounds) }
        ensures err { OnErr result (self.new ≡ self.old) }
    {
        match self.bounds.insert(variable, bounds) {
            Ok(_) => Ok(()),
            Err(_) => Err(AllocError),
        }
    }

    /// Keeps the bounds of a variable's member, where there is room for them.
    pub fn remember_bounds(
        &mut self,
        alloc: Global,
        variable: &Variable,
        bounds: &Bounds,
    ) -> Result<(), AllocError>
        ensures { (model : LoadedModel) → AreRight model self.old → HasBounds model (variable.now, bounds.now) → AreRight model self.new }
    {
        if self.room == 0 {
            return Ok(());
        }
        self.room = self.room - 1;
        let variable = variable.copied(alloc)?;
        self.insert_bounds(variable, *bounds)
    }
}
