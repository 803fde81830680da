// Sets of tuples in the order of first insertion.
ghost use Rattle.std.specs.Prelude.{◌≡◌, [], not, IfOk, IfErr, OnOk, OnErr, Ok, length};
ghost use Rattle.std.specs.List.{IsDistinct};
ghost use Rattle.gmpl_value.specs.SymbolEquality.{tuple_eq};
ghost use Rattle.gmpl_value.specs.Follows.{Follows, Faults};
ghost use Rattle.gmpl_value.specs.Sets.{is_member, is_within, with_element};

use crate::fault::SetFault;
use crate::tuple::Tuple;
use indexmap::IndexSet;
use std::alloc::{AllocError, Global};
use std::marker::Model;

/// A set of tuples, in the order in which they were first inserted. Clauses see the list.
#[derive(Drop)]
pub struct SetValue {
    members: IndexSet<Tuple>,
}

impl Model for SetValue {
    ghost use Rattle.indexmap.specs.IndexSet.{keys};
    ghost use Rattle.gmpl_value.specs.Sets.{Elements};

    ghost Value = { Elements };

    ghost view = { λ s. keys s.members };
}

const MOST_ELEMENTS: usize = 5_000_000;

impl SetValue {
    /// The empty set.
    pub fn new(alloc: Global) -> SetValue
        ensures { result ≡ [] }
    {
        SetValue {
            members: IndexSet::new(alloc),
        }
    }

    /// The elements in order.
    pub fn elements(&self) -> &[Tuple]
        ensures elements { result.now ≡ self.now }
        ensures distinct { IsDistinct tuple_eq self.now }
    {
        self.members.as_slice()
    }

    /// The number of elements.
    pub fn len(&self) -> usize
        ensures { result ≡ length self.now }
    {
        self.members.len()
    }

    /// Whether the tuple is an element.
    pub fn contains(&self, tuple: &Tuple) -> bool
        ensures { result ≡ is_member self.now tuple.now }
    {
        self.members.contains(tuple)
    }

    /// Whether each element is one of the other set.
    pub fn is_within(&self, other: &SetValue) -> bool
        ensures { result ≡ is_within self.now other.now }
    {
        for tuple in self.elements() {
            if !other.contains(tuple) {
                return false;
            }
        }
        true
    }

    /// The same set again.
    pub fn copied(&self, alloc: Global) -> Result<SetValue, AllocError>
        ensures { IfOk result (λ made. made ≡ self.now) }
    {
        let mut members = IndexSet::new(alloc);
        for tuple in self.elements() {
            members.insert(tuple.copied(alloc)?)?;
        }
        Ok(SetValue { members })
    }

    /// Puts a tuple at the end, unless it is there, and tells whether it was new. `TooMany` exactly where
    /// the set would have more than 5,000,000 elements.
    pub fn insert(&mut self, tuple: Tuple) -> Result<bool, (Tuple, SetFault)>
        ensures ok { OnOk result (with_element self.old tuple ≡ Ok self.new) }
        ensures was_new { IfOk result (λ new. new ≡ not (is_member self.old tuple)) }
        ensures fault { IfErr result (λ refused. Faults refused.1 (with_element self.old tuple)) }
        ensures kept { OnErr result (self.new ≡ self.old) }
        ensures value_returned { IfErr result (λ refused. refused.0 ≡ tuple) }
    {
        if self.members.contains(&tuple) {
            return Ok(false);
        }
        if self.members.len() >= MOST_ELEMENTS {
            return Err((tuple, SetFault::TooMany));
        }
        match self.members.insert(tuple) {
            Ok(_) => Ok(true),
            Err(refused) => Err((refused.value, SetFault::NoMemory)),
        }
    }

    // The same where the tuple is of no use after a fault.
    pub(crate) fn add(&mut self, tuple: Tuple) -> Result<(), SetFault>
        ensures { Follows result self.new (with_element self.old tuple) }
    {
        self.insert(tuple)?;
        Ok(())
    }
}
