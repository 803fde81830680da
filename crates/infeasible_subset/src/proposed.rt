// Points that are to meet all bounds that weights use but one. They are proposed here, and tested before they are used.
//
// Such weights come from one basis as a rule: of the forms that they use all but one are then independent, and their sum by
// the weights is nothing. So those forms have any values at some point, and the last form has its bound where one of them
// misses its own by the sum of all bounds by the weights over its weight.
use crate::Member;
use crate::bounds::{column_used, row_used};
use certificate::{Item, LeafWeights};
use fraction::Frac;
use instance::{Entry as FormEntry, Instance, Point};
use sparse_factors::{
    Entry, Factored, Factors, Fractions, Lists, Matrix, Stop, add, at, difference, factorise,
    fused, quotient, zeros,
};
use std::alloc::Global;

// A bound that the weights use.
#[derive(Clone, Copy)]
struct Used {
    member: Member,
    weight: Frac,
    bound: Frac,
}

/// What points are proposed with: the factors of the forms that the weights use, but for the last of them.
#[derive(Drop)]
pub(crate) struct Proposals {
    used: Vec<Used>,
    // the sum of the bounds by their weights
    sum: Frac,
    factors: Factors,
    // the form, by its place in `used`, that each column is solved for; a larger number where there is none
    slots: Vec<usize>,
}

/// What points for these weights are proposed with, where all numbers on the way fit.
pub(crate) fn proposing(
    alloc: Global,
    problem: &Instance,
    weights: &LeafWeights,
) -> Option<Proposals> {
    factored(alloc, problem, weights).ok()
}

/// A point that is to meet all that the weights use, but for this member.
pub(crate) fn proposed(
    alloc: Global,
    proposals: &Option<Proposals>,
    member: &Member,
) -> Option<Point> {
    match proposals {
        Some(made) => made.point(alloc, member).ok(),
        None => None,
    }
}

fn factored(alloc: Global, problem: &Instance, weights: &LeafWeights) -> Result<Proposals, Stop> {
    let mut used = Vec::new(alloc);
    add_rows(&mut used, problem, weights.weights().rows().as_slice())?;
    add_columns(&mut used, problem, weights.weights().columns().as_slice())?;
    longest_last(problem, &mut used);
    let matrix = matrix_of(alloc, problem, &used)?;
    let basic = places_below(alloc, matrix.columns)?;
    let Factored { factors, slots } = factorise(alloc, &matrix, &basic)?;
    let sum = sum_of(&used)?;
    Ok(Proposals {
        used,
        sum,
        factors,
        slots,
    })
}

// ---- what is used

fn add_rows(used: &mut Vec<Used>, problem: &Instance, items: &[Item]) -> Result<(), Stop> {
    for item in items {
        let member = row_used(item);
        let bound = bound_of(problem, &member)?;
        let weight = item.weight;
        add(
            used,
            Used {
                member,
                weight,
                bound,
            },
        )?;
    }
    Ok(())
}

fn add_columns(used: &mut Vec<Used>, problem: &Instance, items: &[Item]) -> Result<(), Stop> {
    for item in items {
        let member = column_used(item);
        let bound = bound_of(problem, &member)?;
        let weight = item.weight;
        add(
            used,
            Used {
                member,
                weight,
                bound,
            },
        )?;
    }
    Ok(())
}

fn bound_of(problem: &Instance, member: &Member) -> Result<Frac, Stop> {
    match bound_at(problem, member) {
        Some(bound) => Ok(bound),
        None => Err(Stop::NoFit),
    }
}

fn bound_at(problem: &Instance, member: &Member) -> Option<Frac> {
    match member {
        Member::OfRow(place, side) => {
            let row = problem.rows().get(*place)?;
            side.bound(row.lower(), row.upper())
        }
        Member::OfColumn(place, side) => {
            let column = problem.columns().get(*place)?;
            side.bound(column.lower(), column.upper())
        }
    }
}

fn sum_of(used: &[Used]) -> Result<Frac, Stop> {
    let mut sum = Frac::zero();
    for one in used {
        sum = fused(one.weight, one.bound, sum)?;
    }
    Ok(sum)
}

// ---- their forms

fn form_of<'a>(problem: &'a Instance, member: &Member) -> &'a [FormEntry] {
    match member {
        Member::OfRow(place, _) => match problem.rows().get(*place) {
            Some(row) => row.entries().as_slice(),
            None => &[],
        },
        Member::OfColumn(_, _) => &[],
    }
}

// Moves the one with the longest form behind the others.
fn longest_last(problem: &Instance, used: &mut [Used]) {
    let mut longest = 0;
    let mut most = 0;
    for place in 0..used.len() {
        let length = form_of(problem, &used[place].member).len();
        if length > most {
            most = length;
            longest = place;
        }
    }
    exchange_with_last(used, longest);
}

fn exchange_with_last(used: &mut [Used], place: usize) {
    let last = used.len().saturating_sub(1);
    if place < used.len() && last < used.len() {
        let one = used[place];
        used[place] = used[last];
        used[last] = one;
    }
}

// The forms but for the last one as columns of a matrix, which has a row for each column of the problem.
fn matrix_of(alloc: Global, problem: &Instance, used: &[Used]) -> Result<Matrix, Stop> {
    let rows = problem.columns().len();
    let columns = used.len().saturating_sub(1);
    let mut by_column = Lists::new(alloc);
    for place in 0..columns {
        add_form(&mut by_column, problem, &used[place].member)?;
    }
    let names = places_below(alloc, columns)?;
    let by_row = by_column.turned(alloc, &names, rows)?;
    Ok(Matrix {
        rows,
        columns,
        by_column,
        by_row,
    })
}

fn add_form(lists: &mut Lists, problem: &Instance, member: &Member) -> Result<(), Stop> {
    match member {
        Member::OfRow(_, _) => add_entries(lists, form_of(problem, member))?,
        Member::OfColumn(place, _) => lists.put(Entry {
            at: *place,
            number: Frac::one(),
        })?,
    }
    lists.close()
}

fn add_entries(lists: &mut Lists, form: &[FormEntry]) -> Result<(), Stop> {
    for entry in form {
        lists.put(Entry {
            at: entry.column as usize,
            number: entry.coefficient,
        })?;
    }
    Ok(())
}

fn places_below(alloc: Global, count: usize) -> Result<Vec<usize>, Stop> {
    let mut places = Vec::with_capacity(alloc, count)?;
    for place in 0..count {
        add(&mut places, place)?;
    }
    Ok(places)
}

// ---- points

impl Proposals {
    fn point(&self, alloc: Global, member: &Member) -> Result<Point, Stop> {
        let mut unknowns = Fractions {
            numbers: self.values(alloc, member)?,
        };
        self.factors.solve_rows(&mut unknowns)?;
        Ok(Point::from_vec(unknowns.numbers))
    }

    // What the forms are to be at the point, at the columns that are solved for them; 0 at the others.
    fn values(&self, alloc: Global, member: &Member) -> Result<Vec<Frac>, Stop> {
        let forms = self.used.len().saturating_sub(1);
        let mut values = zeros(alloc, self.slots.len())?;
        for column in 0..values.len() {
            let place = at(&self.slots, column, forms);
            if place < forms {
                values[column] = self.value(&self.used[place], member)?;
            }
        }
        Ok(values)
    }

    // The bound, or what misses it by as much as it has to.
    fn value(&self, used: &Used, member: &Member) -> Result<Frac, Stop> {
        if used.member.is_same(member) {
            difference(used.bound, quotient(self.sum, used.weight)?)
        } else {
            Ok(used.bound)
        }
    }
}
