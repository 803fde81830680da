// What members come to.
ghost use Rattle.std.specs.Prelude.{◌≡◌, OnOk};
ghost use Rattle.gmpl_solution.specs.Solution.{nothing, value_of, dual_of, column_of, row_of, with_column, with_row};

use crate::dual::Dual;
use crate::member::Member;
use fraction::Frac;
use indexmap::IndexMap;
use std::alloc::{AllocError, Global};
use std::marker::Model;

/// What a member that is a column or a row comes to: its number at the point, which of a row is the value of its form, its own
/// bounds, and its dual value.
#[derive(Clone, Copy)]
pub struct SolvedMember {
    pub value: Frac,
    pub lower: Option<Frac>,
    pub upper: Option<Frac>,
    pub dual: Dual,
}

/// What members come to at a point of the problem: those of variables that are columns, and those of constraints and objectives;
/// and the dual value of a variable's member that is no column. Clauses see the two lists of pairs.
#[derive(Drop)]
pub struct Solution {
    columns: IndexMap<Member, SolvedMember>,
    rows: IndexMap<Member, SolvedMember>,
    elsewhere: Dual,
}

impl Model for Solution {
    ghost use Rattle.gmpl_solution.specs.Solution.{Solution as SolutionOf};

    ghost Value = { SolutionOf };

    ghost view = { λ s. record { columns = s.columns.entries; rows = s.rows.entries; elsewhere = s.elsewhere } };
}

impl Solution {
    /// Nothing so far, where a variable's member that is no column has this dual value.
    pub fn new(alloc: Global, elsewhere: Dual) -> Solution
        ensures { result ≡ nothing elsewhere }
    {
        Solution {
            columns: IndexMap::new(alloc),
            rows: IndexMap::new(alloc),
            elsewhere,
        }
    }

    /// The number of a variable's member: 0 where it is no column.
    pub fn value(&self, member: &Member) -> Frac
        ensures { result ≡ value_of self.now member.now }
    {
        match self.column(member) {
            Some(column) => column.value,
            None => Frac::zero(),
        }
    }

    /// The dual value of a variable's member.
    pub fn dual(&self, member: &Member) -> Dual
        ensures { result ≡ dual_of self.now member.now }
    {
        match self.column(member) {
            Some(column) => column.dual,
            None => self.elsewhere,
        }
    }

    /// What a variable's member comes to, where it is a column.
    pub fn column(&self, member: &Member) -> Option<SolvedMember>
        ensures { result ≡ column_of self.now member.now }
    {
        match self.columns.get(member) {
            Some(column) => Some(*column),
            None => None,
        }
    }

    /// What the member of a constraint or of an objective comes to, where it has a row.
    pub fn row(&self, member: &Member) -> Option<SolvedMember>
        ensures { result ≡ row_of self.now member.now }
    {
        match self.rows.get(member) {
            Some(row) => Some(*row),
            None => None,
        }
    }

    /// What a column's member comes to.
    pub fn add_column(&mut self, member: Member, column: SolvedMember) -> Result<(), AllocError>
        ensures { OnOk result (self.new ≡ with_column self.old member column) }
    {
        match self.columns.insert(member, column) {
            Ok(_) => Ok(()),
            Err(_) => Err(AllocError),
        }
    }

    /// What a row's member comes to.
    pub fn add_row(&mut self, member: Member, row: SolvedMember) -> Result<(), AllocError>
        ensures { OnOk result (self.new ≡ with_row self.old member row) }
    {
        match self.rows.insert(member, row) {
            Ok(_) => Ok(()),
            Err(_) => Err(AllocError),
        }
    }
}
