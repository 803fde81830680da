// The members of one variable that were demanded.
ghost use Rattle.std.specs.Prelude.{◌≡◌, ◌<◌, length, get_or, slice_get, Some, OnOk, IfOk};
ghost use Rattle.std.specs.List.{IsDistinct};
ghost use Rattle.gmpl_value.specs.SymbolEquality.{tuple_eq};
ghost use Rattle.gmpl_rows.specs.MemberColumn.{is_used, no_column};
ghost use Rattle.gmpl_rows.specs.Demanded.{none_demanded, demand, place_of, give, noted_in, IsMore};

use crate::member_column::{Cell, MemberColumn};
use crate::term::{Bounds, Term};
use gmpl_functions::Variable;
use gmpl_value::Tuple;
use indexmap::IndexSet;
use std::alloc::{AllocError, Global};
use std::marker::Model;

// The members in the order of their first demand, and the column that each may become.
#[derive(Drop)]
pub(crate) struct Demanded {
    members: IndexSet<Tuple>,
    columns: Vec<MemberColumn>,
}

impl Model for Demanded {
    ghost use Rattle.std.specs.Prelude.{◌≡◌, length};
    ghost use Rattle.indexmap.specs.IndexSet.{keys};
    ghost use Rattle.gmpl_rows.specs.Demanded.{Demanded as DemandedOf};

    ghost Value = { DemandedOf };

    ghost view = { λ d. record { members = keys d.members; columns = d.columns.items } };

    ghost invariant = { λ d. length d.columns.items ≡ length (keys d.members) };
}

impl Demanded {
    pub(crate) fn new(alloc: Global) -> Self
        ensures { result ≡ none_demanded }
    {
        Demanded {
            members: IndexSet::new(alloc),
            columns: Vec::new(alloc),
        }
    }

    // A member is demanded; its place.
    fn demand(
        &mut self,
        alloc: Global,
        subscripts: Tuple,
        bounds: Bounds,
    ) -> Result<usize, AllocError>
        ensures ok { OnOk result (self.new ≡ demand subscripts bounds self.old) }
        ensures place { IfOk result (λ place. place ≡ place_of subscripts self.old) }
        ensures within { IfOk result (λ place. place < length self.new.columns) }
    {
        self.columns.reserve(1)?;
        let (place, new) = self.members.insert_full(subscripts)?;
        if new {
            self.columns.push_reserved(MemberColumn::new(alloc, bounds));
        }
        Ok(place)
    }

    // The members, of which no two are the same.
    pub(crate) fn members(&self) -> &[Tuple]
        ensures members { result.now ≡ self.now.members }
        ensures count { length self.now.members ≡ length self.now.columns }
        ensures distinct { IsDistinct tuple_eq self.now.members }
    {
        self.members.as_slice()
    }

    // The column of the member at a place.
    pub(crate) fn column(&self, place: usize) -> &MemberColumn
        requires { place < length self.now.columns }
        ensures { slice_get self.now.columns place ≡ Some result.now }
    {
        &self.columns[place]
    }

    // The member at a place has a coefficient.
    fn is_used(&self, place: usize) -> bool
        requires { place < length self.now.columns }
        ensures { result ≡ is_used (get_or self.now.columns place no_column) }
    {
        self.columns[place].is_used()
    }

    // One more coefficient of the member at a place.
    fn give(&mut self, place: usize, cell: Cell) -> Result<(), AllocError>
        requires { place < length self.old.columns }
        ensures ok { OnOk result (self.new ≡ give place cell self.old) }
    {
        self.columns[place].push(cell)?;
        Ok(())
    }

    // A term of a row.
    pub(crate) fn note(&mut self, alloc: Global, row: u32, term: Term) -> Result<More, AllocError>
        ensures ok { OnOk result (self.new ≡ noted_in row term self.old) }
        ensures counts { IfOk result (λ more. IsMore more self.old self.new) }
    {
        let Term {
            variable,
            bounds,
            coefficient,
        } = term;
        let Variable {
            statement: _,
            subscripts,
        } = variable;
        let place = self.demand(alloc, subscripts, bounds)?;
        if coefficient.is_zero() {
            return Ok(More {
                entries: 0,
                columns: 0,
            });
        }
        let columns = if self.is_used(place) { 0 } else { 1 };
        self.give(place, Cell { row, coefficient })?;
        Ok(More {
            entries: 1,
            columns,
        })
    }
}

// How many entries and columns there are more.
#[derive(Clone, Copy)]
pub(crate) struct More {
    pub(crate) entries: usize,
    pub(crate) columns: usize,
}
