// Dictionaries.
ghost use Rattle.std.specs.Prelude.{ℕ, pos, List, [], length, get_or, ◌≡◌, ◌≢◌, ◌<◌, OnOk, IfOk, IfErr};
ghost use Rattle.milp.specs.Form.{number_at};
ghost use Rattle.basis.specs.System.{System as SystemOf};
ghost use Rattle.basis.specs.Dictionary.{place_of, IsBasic, IsResting, IsDictionary, rate_of, gain_of};
ghost use Rattle.basis.specs.Bland.{exchanged, IsStart};
ghost use Rattle.basis.specs.Pivots.{IsPivoted};
ghost use Rattle.basis.specs.declared.Place.TheVariants.{Basic};
ghost use Rattle.dictionary.specs.Faults.{IfNoFit};
ghost use Rattle.dictionary.specs.Rows.{IsSolved, IsSubstituted, IsSolvingFault, IsSubstitutionFault};
ghost use Rattle.dictionary.specs.Table.{is_basic, dictionary_of, IsTable, AreSubstituted, IsRowsFault, moved_positions, ArePivoted, IsPivotedFault, IsPivotFault};

use crate::fault::Fault;
use crate::row::Row;
use crate::start::{places_of, positions_of, row_of, rows_of};
use crate::system::System;
use basis::Place;
use fraction::Frac;
use std::alloc::{AllocError, Global};
use std::marker::Model;
use std::mem;

/// A basis and its dictionary, as a table: a row for each basic variable, a column for each resting one.
#[derive(Drop)]
pub struct Dictionary {
    places: Vec<Place>,
    positions: Vec<usize>,
    rows: Vec<Row>,
    gains: Row,
}

impl Model for Dictionary {
    ghost use Rattle.dictionary.specs.Table.{Table, IsTable};

    ghost Value = { Table };

    ghost view = { λ d. record { places = d.places.items; positions = d.positions.items; rows = d.rows.items; gains = d.gains } };

    ghost invariant = { λ d. IsTable d.places.items d.positions.items d.rows.items d.gains };
}

impl Dictionary {
    /// The basis and the dictionary at the start of a run.
    pub fn start(alloc: Global, system: &System) -> Result<Dictionary, AllocError>
        ensures basis { IfOk result (λ d. IsStart system.now d.places) }
        ensures dictionary { IfOk result (λ d. IsDictionary system.now d.places (dictionary_of d)) }
    {
        basis::starts();
        let columns = system.columns();
        let forms = system.forms();
        let places = places_of(alloc, system)?;
        let positions = positions_of(alloc, columns, forms.len())?;
        let rows = rows_of(alloc, columns, forms)?;
        let gains = row_of(alloc, columns, system.objective())?;
        Ok(Dictionary {
            places,
            positions,
            rows,
            gains,
        })
    }

    /// The basis: the place of each variable.
    pub fn places(&self) -> &[Place]
        ensures { result.now ≡ self.now.places }
    {
        &self.places
    }

    /// The place of a variable.
    pub fn place(&self, v: usize) -> Place
        requires { v < length self.now.places }
        ensures { result ≡ get_or self.now.places v Basic }
    {
        self.places[v]
    }

    /// The places of all variables, copied.
    pub fn copied_places(&self) -> Result<Vec<Place>, AllocError>
        ensures { IfOk result (λ places. places.items ≡ self.now.places) }
    {
        self.places.clone()
    }

    /// A variable is basic.
    pub fn is_basic(&self, v: usize) -> bool
        requires { v < length self.now.places }
        ensures { result ≡ is_basic (place_of self.now.places v) }
    {
        matches!(self.places[v], Place::Basic)
    }

    /// How much the basic variable v changes where the resting variable q rises by 1.
    pub fn rate(&self, q: usize, v: usize) -> Frac
        requires resting { IsResting self.now.places q }
        requires basic { IsBasic self.now.places v }
        ensures { result ≡ rate_of (dictionary_of self.now) q v }
    {
        let line = position(&self.positions, v);
        let column = position(&self.positions, q);
        number(&self.rows, line, column)
    }

    /// How much the objective changes where the resting variable q rises by 1.
    pub fn gain(&self, q: usize) -> Frac
        requires { IsResting self.now.places q }
        ensures { result ≡ gain_of (dictionary_of self.now) q }
    {
        self.gains.at(position(&self.positions, q))
    }

    /// Makes q basic in the place of r, which rests at the place that is given.
    pub fn pivot(self, alloc: Global, q: usize, r: usize, place: Place) -> Result<Dictionary, Fault>
        requires enters { IsResting self.places q }
        requires leaves { IsBasic self.places r }
        requires stops { place ≢ Basic }
        requires some_rate { (rate_of (dictionary_of self) q r).numerator ≢ pos 0 }
        ensures basis { IfOk result (λ d. d.places ≡ exchanged self.places q r place) }
        ensures numbers { IfOk result (λ d. IsPivoted self.places (dictionary_of self) (dictionary_of d) q r) }
        ensures fault { IfErr result (IfNoFit (IsPivotFault self q r)) }
    {
        let Dictionary {
            mut places,
            mut positions,
            mut rows,
            mut gains,
        } = self;
        let column = position(&positions, q);
        let line = position(&positions, r);
        pivot_rows(alloc, &mut rows, &mut gains, line, column)?;
        exchange(&mut places, q, r, place);
        move_positions(&mut positions, q, r);
        Ok(Dictionary {
            places,
            positions,
            rows,
            gains,
        })
    }
}

impl Dictionary {
    /// Lets the resting variable q rest at another place.
    pub fn flip(&mut self, q: usize, place: Place)
        requires rests { IsResting self.old.places q }
        requires stops { place ≢ Basic }
        ensures basis { self.new.places ≡ exchanged self.old.places q q place }
        ensures dictionary { (s : SystemOf) → IsDictionary s self.old.places (dictionary_of self.old) → IsDictionary s self.new.places (dictionary_of self.new) }
    {
        basis::flips();
        exchange(&mut self.places, q, q, place);
    }
}

// The row or column of a variable.
fn position(positions: &[usize], v: usize) -> usize
    requires { v < length positions.now }
    ensures { result ≡ get_or positions.now v 0 }
{
    positions[v]
}

// The number in a row and a column.
fn number(rows: &[Row], line: usize, column: usize) -> Frac
    requires line { line < length rows.now }
    requires column { column < length (get_or rows.now line []) }
    ensures { result ≡ number_at (get_or rows.now line []) column }
{
    rows[line].at(column)
}

// Makes q basic, and r rest at the place.
fn exchange(places: &mut [Place], q: usize, r: usize, place: Place)
    requires enters { q < length places.old }
    requires leaves { r < length places.old }
    ensures { places.new ≡ exchanged places.old q r place }
{
    places[q] = Place::Basic;
    places[r] = place;
}

// q takes the row of r, and r the column of q.
fn move_positions(positions: &mut [usize], q: usize, r: usize)
    requires enters { q < length positions.old }
    requires leaves { r < length positions.old }
    ensures { positions.new ≡ moved_positions positions.old q r }
{
    let column = positions[q];
    positions[q] = positions[r];
    positions[r] = column;
}

// Solves the row at `line` for the place `column`, and puts it in in the other rows and the objective's.
fn pivot_rows(
    alloc: Global,
    rows: &mut [Row],
    gains: &mut Row,
    line: usize,
    column: usize,
) -> Result<(), Fault>
    requires known { line < length rows.old }
    requires widths { (i : ℕ) → i < length rows.old → length (get_or rows.old i []) ≡ length gains.old }
    requires inside { column < length gains.old }
    requires some { (number_at (get_or rows.old line []) column).numerator ≢ pos 0 }
    ensures ok { OnOk result (ArePivoted rows.old gains.old line column rows.new gains.new) }
    ensures err { IfErr result (IfNoFit (IsPivotedFault rows.old gains.old line column)) }
{
    let mut solved = mem::replace(&mut rows[line], Row::new(alloc));
    solved.solve(column)?;
    substitute_all(alloc, rows, &solved, line, column)?;
    gains.substitute(alloc, &solved, column)?;
    rows[line] = solved;
    Ok(())
}

// Puts the row `solved` in for the place `column` in each row but the one at `line`, which stays.
fn substitute_all(
    alloc: Global,
    rows: &mut [Row],
    solved: &Row,
    line: usize,
    column: usize,
) -> Result<(), Fault>
    requires widths { (i : ℕ) → i < length rows.old → i ≢ line → length (get_or rows.old i []) ≡ length solved.now }
    requires inside { column < length solved.now }
    ensures ok { OnOk result (AreSubstituted rows.old solved.now line column rows.new) }
    ensures err { IfErr result (IfNoFit (IsRowsFault rows.old solved.now line column)) }
{
    for i in 0..rows.len() {
        if i != line {
            rows[i].substitute(alloc, solved, column)?;
        }
    }
    Ok(())
}
