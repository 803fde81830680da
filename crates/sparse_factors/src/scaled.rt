// A vector of whole numbers over one denominator, as systems are solved in it.
use crate::lists::Entry;
use crate::numbers::{checked_times, product, quotient, whole};
use crate::stop::Stop;
use crate::unknowns::Unknowns;
use crate::vectors::{add, at, filled, put, zeros};
use fraction::Frac;
use std::alloc::Global;

/// A vector times `scale`, all of whose numbers are whole. There is no greatest common divisor to find, but it fits less
/// often than fractions do. The places that may have a number other than 0 are listed, so that the others cost nothing.
#[derive(Drop)]
pub struct Scaled {
    numbers: Vec<i128>,
    scale: i128,
    // above it what all numbers have in common is looked for, and how much the scale may grow until that is done again
    room: i128,
    growth: i128,
    // the places that may have a number other than 0, each of them once, how many they are, and whether a place is one of them
    touched: Vec<usize>,
    known: usize,
    is_touched: Vec<bool>,
}

// The scale above which what all numbers have in common is looked for, and how much it grows until that is done again, where numbers
// fit.
const ROOM: i128 = 1 << 40;

impl Scaled {
    /// So many zeros.
    pub fn zeros(alloc: Global, count: usize) -> Result<Scaled, Stop> {
        Ok(Scaled {
            numbers: filled(alloc, count, 0)?,
            scale: 1,
            room: ROOM,
            growth: ROOM,
            touched: filled(alloc, count, 0)?,
            known: 0,
            is_touched: filled(alloc, count, false)?,
        })
    }

    /// What the numbers of the vector are multiplied with.
    pub fn scale(&self) -> i128 {
        self.scale
    }

    /// The number at a place, times the scale.
    #[inline]
    pub fn number(&self, place: usize) -> i128 {
        at(&self.numbers, place, 0)
    }

    /// Makes 1 of the number at a place, and 0 of the others.
    pub fn become_unit(&mut self, place: usize) {
        self.clear(1);
        self.write(place, 1);
    }

    /// Takes these numbers, from the first place on, and 0 at the places behind them.
    pub fn become_numbers(&mut self, numbers: &[Frac]) -> Result<(), Stop> {
        self.clear(denominator_of(numbers)?);
        for place in 0..numbers.len() {
            if !numbers[place].is_zero() {
                self.set(place, numbers[place])?;
            }
        }
        Ok(())
    }

    /// Takes the entries' numbers at their places, and 0 at the others.
    pub fn become_entries(&mut self, entries: &[Entry]) -> Result<(), Stop> {
        self.clear(denominator_in(entries)?);
        for entry in entries {
            self.set(entry.at, entry.number)?;
        }
        Ok(())
    }

    // All numbers are 0, over this scale.
    fn clear(&mut self, scale: i128) {
        for i in 0..self.known {
            let place = at(&self.touched, i, 0);
            put(&mut self.numbers, place, 0);
            put(&mut self.is_touched, place, false);
        }
        self.known = 0;
        self.scale = scale;
        self.room = ROOM;
        self.growth = ROOM;
    }

    /// Takes out what all numbers have in common wherever the scale has grown, so that they fit more often.
    pub fn save_room(&mut self) {
        self.room = 1;
        self.growth = 1;
    }

    /// Sets the number at a place, times the scale.
    #[inline]
    pub fn write(&mut self, place: usize, number: i128) {
        if self.number(place) == 0 {
            self.touch(place);
        }
        put(&mut self.numbers, place, number);
    }

    #[inline]
    fn touch(&mut self, place: usize) {
        if !at(&self.is_touched, place, true) {
            put(&mut self.is_touched, place, true);
            put(&mut self.touched, self.known, place);
            self.known = self.known.saturating_add(1);
        }
    }

    // Sets the number at a place. The scale is a multiple of its denominator.
    fn set(&mut self, place: usize, number: Frac) -> Result<(), Stop> {
        let (numerator, denominator) = number.parts();
        let scaled = if denominator == self.scale {
            numerator
        } else {
            product(number, whole(self.scale)?)?.parts().0
        };
        self.write(place, scaled);
        Ok(())
    }

    // Puts the touched places in order, by the marks of all places where they are many.
    fn order_places(&mut self) {
        if self.are_few(self.numbers.len()) {
            sort_first(&mut self.touched, self.known);
        } else {
            self.list_marked();
        }
    }

    fn list_marked(&mut self) {
        self.known = 0;
        for place in 0..self.is_touched.len() {
            if self.is_touched[place] {
                put(&mut self.touched, self.known, place);
                self.known = self.known.saturating_add(1);
            }
        }
    }

    /// The numbers as fractions.
    pub fn fractions(&self, alloc: Global) -> Result<Vec<Frac>, Stop> {
        let scale = whole(self.scale)?;
        let mut fractions = zeros(alloc, self.numbers.len())?;
        for i in 0..self.known {
            let place = at(&self.touched, i, 0);
            let number = self.number(place);
            if number != 0 {
                put(&mut fractions, place, quotient(whole(number)?, scale)?);
            }
        }
        Ok(fractions)
    }

    /// The numbers other than 0, as fractions, in the order of their places.
    pub fn entries(&mut self, alloc: Global) -> Result<Vec<Entry>, Stop> {
        self.order_places();
        let scale = whole(self.scale)?;
        let mut entries = Vec::new(alloc);
        for i in 0..self.known {
            let at = at(&self.touched, i, 0);
            let number = self.number(at);
            if number != 0 {
                let number = quotient(whole(number)?, scale)?;
                add(&mut entries, Entry { at, number })?;
            }
        }
        Ok(entries)
    }

    /// The same, times the scale.
    pub fn whole_entries(&mut self, alloc: Global) -> Result<Vec<Entry>, Stop> {
        self.order_places();
        let mut entries = Vec::new(alloc);
        for i in 0..self.known {
            let at = at(&self.touched, i, 0);
            let number = self.number(at);
            if number != 0 {
                let number = whole(number)?;
                add(&mut entries, Entry { at, number })?;
            }
        }
        Ok(entries)
    }

    /// The number at a place, divided, times the scale; all are scaled where it is not whole.
    #[inline]
    pub fn divided(&mut self, place: usize, divisor: i128) -> Result<i128, Stop> {
        if divisor == 1 {
            Ok(self.number(place))
        } else {
            self.shared(place, divisor)
        }
    }

    fn shared(&mut self, place: usize, divisor: i128) -> Result<i128, Stop> {
        if self.scale > self.room {
            self.reduce()?;
        }
        let number = self.number(place);
        let (share, more) = lowest(number, divisor)?;
        if more != 1 {
            self.scale_by(more)?;
        }
        Ok(share)
    }

    fn scale_by(&mut self, factor: i128) -> Result<(), Stop> {
        self.scale = times(self.scale, factor)?;
        for i in 0..self.known {
            let place = at(&self.touched, i, 0);
            let number = self.number(place);
            if number != 0 {
                put(&mut self.numbers, place, times(number, factor)?);
            }
        }
        Ok(())
    }

    // Divides all numbers and the scale by what they have in common.
    fn reduce(&mut self) -> Result<(), Stop> {
        let common = self.common_divisor()?;
        if common > 1 {
            self.scale /= common;
            for i in 0..self.known {
                let place = at(&self.touched, i, 0);
                let number = self.number(place);
                if number != 0 {
                    put(&mut self.numbers, place, number / common);
                }
            }
        }
        self.room = self.scale.saturating_mul(self.growth);
        Ok(())
    }

    fn common_divisor(&self) -> Result<i128, Stop> {
        let mut common = self.scale;
        for i in 0..self.known {
            if common == 1 {
                return Ok(1);
            }
            let number = self.number(at(&self.touched, i, 0));
            if number.checked_rem(common) != Some(0) {
                let (_, other) = quotient(whole(number)?, whole(common)?)?.parts();
                common /= other;
            }
        }
        Ok(common)
    }

    // Takes an entry, times the number at a place, off the number at another one.
    fn subtract(&mut self, entry: Frac, place: usize, from: usize) -> Result<(), Stop> {
        let (numerator, denominator) = entry.parts();
        let share = self.divided(place, denominator)?;
        let rest = less(self.number(from), times(share, numerator)?)?;
        self.write(from, rest);
        Ok(())
    }

    /// Takes a product off the number at a place, times the scale.
    pub fn take_off(&mut self, place: usize, a: i128, b: i128) -> Result<(), Stop> {
        let rest = less(self.number(place), times(a, b)?)?;
        self.write(place, rest);
        Ok(())
    }
}

impl Unknowns for Scaled {
    fn are_few(&self, count: usize) -> bool {
        self.known.saturating_mul(self.known) < count / 4
    }

    fn first_from(&self, ranks: &[usize], from: usize) -> Option<usize> {
        let mut first = None;
        for i in 0..self.known {
            let place = at(&self.touched, i, 0);
            let rank = at(ranks, place, 0);
            if rank >= from && !self.is_zero(place) {
                first = Some(rank.min(first.unwrap_or(rank)));
            }
        }
        first
    }

    fn last_below(&self, ranks: &[usize], end: usize) -> Option<usize> {
        let mut last = None;
        for i in 0..self.known {
            let place = at(&self.touched, i, 0);
            let rank = at(ranks, place, usize::MAX);
            if rank < end && !self.is_zero(place) {
                last = Some(rank.max(last.unwrap_or(rank)));
            }
        }
        last
    }

    fn is_zero(&self, place: usize) -> bool {
        self.number(place) == 0
    }

    fn multiply(&mut self, place: usize, factor: Frac) -> Result<(), Stop> {
        let (numerator, denominator) = factor.parts();
        let share = self.divided(place, denominator)?;
        put(&mut self.numbers, place, times(share, numerator)?);
        Ok(())
    }

    fn subtract_multiple(&mut self, entries: &[Entry], place: usize) -> Result<(), Stop> {
        for entry in entries {
            self.subtract(entry.number, place, entry.at)?;
        }
        Ok(())
    }

    fn subtract_products(&mut self, entries: &[Entry], place: usize) -> Result<(), Stop> {
        for entry in entries {
            if self.number(entry.at) != 0 {
                self.subtract(entry.number, entry.at, place)?;
            }
        }
        Ok(())
    }
}

// Puts the first so many places in order.
fn sort_first(places: &mut [usize], count: usize) {
    for i in 1..count {
        move_down(places, i);
    }
}

// A place goes down to those that are less.
fn move_down(places: &mut [usize], from: usize) {
    let mut at = from;
    while at > 0 && at < places.len() {
        let below = at - 1;
        if places[below] <= places[at] {
            return;
        }
        places.swap(at, below);
        at = below;
    }
}

// The least common denominator of the numbers.
fn denominator_of(numbers: &[Frac]) -> Result<i128, Stop> {
    let mut common = 1;
    for number in numbers {
        common = joined(common, *number)?;
    }
    Ok(common)
}

// That of the entries' numbers.
fn denominator_in(entries: &[Entry]) -> Result<i128, Stop> {
    let mut common = 1;
    for entry in entries {
        common = joined(common, entry.number)?;
    }
    Ok(common)
}

// The least multiple that a number's denominator has with another one.
fn joined(common: i128, number: Frac) -> Result<i128, Stop> {
    let denominator = number.parts().1;
    if denominator == 1 {
        return Ok(common);
    }
    let (factor, _) = quotient(whole(denominator)?, whole(common)?)?.parts();
    times(common, factor)
}

// The quotient's numerator and denominator in lowest terms.
fn lowest(number: i128, divisor: i128) -> Result<(i128, i128), Stop> {
    match whole_share(number, divisor) {
        Some(share) => Ok((share, 1)),
        None => Ok(quotient(whole(number)?, whole(divisor)?)?.parts()),
    }
}

// The quotient, where it is whole: by words where both are such.
fn whole_share(number: i128, divisor: i128) -> Option<i128> {
    match (i64::try_from(number), i64::try_from(divisor)) {
        (Ok(n), Ok(d)) => match n.checked_rem(d) {
            Some(0) => Some(i128::from(n.checked_div(d)?)),
            _ => None,
        },
        _ => match number.checked_rem(divisor) {
            Some(0) => number.checked_div(divisor),
            _ => None,
        },
    }
}

fn times(a: i128, b: i128) -> Result<i128, Stop> {
    match checked_times(a, b) {
        Some(product) => Ok(product),
        None => Err(Stop::NoFit),
    }
}

fn less(a: i128, b: i128) -> Result<i128, Stop> {
    match a.checked_sub(b) {
        Some(difference) => Ok(difference),
        None => Err(Stop::NoFit),
    }
}
