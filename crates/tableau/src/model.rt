// The linear program as the search sees it: each row is a variable too, A x + s = 0, and all variables have bounds.
use crate::scaling::units_of;
use certificate::{ColumnSplit, Side};
use fraction::Frac;
use instance::{Column, Direction, Entry as FormEntry, Instance, Row};
use search_node::SplitsTaken;
use sparse_factors::{Entry, Lists, Matrix, Stop, add, at, number_at, put, sum, whole, zeros};
use std::alloc::Global;

/// The bounds of a variable.
#[derive(Clone, Copy)]
pub struct Bounds {
    pub lower: Option<Frac>,
    pub upper: Option<Frac>,
}

impl Bounds {
    /// Both bounds are there and the same.
    pub fn is_fixed(self) -> bool {
        match (self.lower, self.upper) {
            (Some(lower), Some(upper)) => lower == upper,
            _ => false,
        }
    }

    /// Both bounds are there.
    pub fn is_boxed(self) -> bool {
        self.lower.is_some() && self.upper.is_some()
    }

    // The lower bound is above the upper one.
    fn is_crossed(self) -> bool {
        match (self.lower, self.upper) {
            (Some(lower), Some(upper)) => upper < lower,
            _ => false,
        }
    }
}

/// A linear program that asks for a least value. The variables are the columns and then, for each row, minus its value,
/// which has a cost of 0. Units are logarithms in which sizes of variables are compared fairly.
#[derive(Drop)]
pub struct Model {
    pub matrix: Matrix,
    pub bounds: Vec<Bounds>,
    pub costs: Vec<Frac>,
    pub units: Vec<i32>,
    // all entries of the matrix are whole
    pub(crate) is_whole: bool,
}

impl Model {
    /// How many variables there are.
    pub fn size(&self) -> usize {
        self.bounds.len()
    }

    /// The bounds of a variable.
    #[inline]
    pub fn bounds_of(&self, v: usize) -> Bounds {
        at(&self.bounds, v, FREE)
    }

    /// The cost of a variable.
    pub fn cost_of(&self, v: usize) -> Frac {
        number_at(&self.costs, v)
    }

    /// Sets the bounds of the columns to those that the problem has below the splits.
    pub fn set_bounds(&mut self, problem: &Instance, splits: &SplitsTaken) -> Result<(), Stop> {
        let columns = problem.columns();
        for place in 0..columns.len() {
            put(&mut self.bounds, place, own_bounds(&columns[place]));
        }
        narrow(&mut self.bounds, splits)
    }

    /// No cost is other than 0.
    pub fn has_no_costs(&self) -> bool {
        for cost in &self.costs {
            if !cost.is_zero() {
                return false;
            }
        }
        true
    }

    /// No lower bound is above the upper one.
    pub fn has_bounds_in_order(&self) -> bool {
        for bounds in &self.bounds {
            if bounds.is_crossed() {
                return false;
            }
        }
        true
    }
}

const FREE: Bounds = Bounds {
    lower: None,
    upper: None,
};

/// The linear program that the problem is, its columns taken as continuous.
pub fn model_of(alloc: Global, problem: &Instance) -> Result<Model, Stop> {
    let matrix = matrix_of(alloc, problem)?;
    let mut bounds = column_bounds(alloc, problem.columns())?;
    add_row_bounds(&mut bounds, problem.rows())?;
    let mut costs = zeros(alloc, bounds.len())?;
    set_costs(
        &mut costs,
        problem.objective().as_slice(),
        problem.direction(),
    );
    let units = units_of(alloc, &matrix)?;
    Ok(Model {
        is_whole: are_whole(problem.rows()),
        matrix,
        bounds,
        costs,
        units,
    })
}

fn matrix_of(alloc: Global, problem: &Instance) -> Result<Matrix, Stop> {
    let columns = problem.columns().len();
    let rows = problem.rows().len();
    let by_row = forms(alloc, problem.rows())?;
    let by_column = by_row.turned(alloc, &[], columns)?;
    Ok(Matrix {
        rows,
        columns,
        by_column,
        by_row,
    })
}

fn forms(alloc: Global, rows: &[Row]) -> Result<Lists, Stop> {
    let mut lists = Lists::new(alloc);
    for row in rows {
        add_form(&mut lists, row.entries().as_slice())?;
    }
    Ok(lists)
}

fn are_whole(rows: &[Row]) -> bool {
    for row in rows {
        if !is_whole(row.entries().as_slice()) {
            return false;
        }
    }
    true
}

fn is_whole(form: &[FormEntry]) -> bool {
    for entry in form {
        if !entry.coefficient.is_whole() {
            return false;
        }
    }
    true
}

// One more row, without the zeros in it.
fn add_form(lists: &mut Lists, form: &[FormEntry]) -> Result<(), Stop> {
    for entry in form {
        if !entry.coefficient.is_zero() {
            lists.put(Entry {
                at: entry.column as usize,
                number: entry.coefficient,
            })?;
        }
    }
    lists.close()
}

fn column_bounds(alloc: Global, columns: &[Column]) -> Result<Vec<Bounds>, Stop> {
    let mut bounds = Vec::new(alloc);
    for column in columns {
        add(&mut bounds, own_bounds(column))?;
    }
    Ok(bounds)
}

fn own_bounds(column: &Column) -> Bounds {
    Bounds {
        lower: column.lower(),
        upper: column.upper(),
    }
}

// The bounds of minus each row's value.
fn add_row_bounds(bounds: &mut Vec<Bounds>, rows: &[Row]) -> Result<(), Stop> {
    for row in rows {
        let one = Bounds {
            lower: minus(row.upper()),
            upper: minus(row.lower()),
        };
        add(bounds, one)?;
    }
    Ok(())
}

fn minus(bound: Option<Frac>) -> Option<Frac> {
    match bound {
        Some(bound) => Some(bound.neg()),
        None => None,
    }
}

fn narrow(bounds: &mut [Bounds], splits: &SplitsTaken) -> Result<(), Stop> {
    for taken in splits.as_slice() {
        narrow_by(bounds, taken.split, taken.side)?;
    }
    Ok(())
}

fn narrow_by(bounds: &mut [Bounds], split: ColumnSplit, side: Side) -> Result<(), Stop> {
    let column = split.column() as usize;
    let limit = whole(split.at().get())?;
    let old = at(bounds, column, FREE);
    let new = match side {
        Side::Low => below(old, limit),
        Side::High => above(old, sum(limit, Frac::one())?),
    };
    put(bounds, column, new);
    Ok(())
}

fn below(bounds: Bounds, limit: Frac) -> Bounds {
    match bounds.upper {
        Some(upper) if upper <= limit => bounds,
        _ => Bounds {
            lower: bounds.lower,
            upper: Some(limit),
        },
    }
}

fn above(bounds: Bounds, limit: Frac) -> Bounds {
    match bounds.lower {
        Some(lower) if limit <= lower => bounds,
        _ => Bounds {
            lower: Some(limit),
            upper: bounds.upper,
        },
    }
}

fn set_costs(costs: &mut [Frac], objective: &[FormEntry], direction: Direction) {
    for entry in objective {
        let cost = match direction {
            Direction::Min => entry.coefficient,
            Direction::Max => entry.coefficient.neg(),
        };
        put(costs, entry.column as usize, cost);
    }
}
