// A vector of fractions, as systems are solved in it.
use crate::lists::Entry;
use crate::numbers::{fused, product};
use crate::stop::Stop;
use crate::unknowns::Unknowns;
use crate::vectors::{number_at, put};
use fraction::Frac;

/// A vector of fractions, each in lowest terms.
#[derive(Drop)]
pub struct Fractions {
    pub numbers: Vec<Frac>,
}

impl Unknowns for Fractions {
    fn is_zero(&self, place: usize) -> bool {
        number_at(&self.numbers, place).is_zero()
    }

    fn are_few(&self, _count: usize) -> bool {
        false
    }

    fn first_from(&self, _ranks: &[usize], _from: usize) -> Option<usize> {
        None
    }

    fn last_below(&self, _ranks: &[usize], _end: usize) -> Option<usize> {
        None
    }

    fn multiply(&mut self, place: usize, factor: Frac) -> Result<(), Stop> {
        let number = number_at(&self.numbers, place);
        put(&mut self.numbers, place, product(number, factor)?);
        Ok(())
    }

    fn subtract_multiple(&mut self, entries: &[Entry], place: usize) -> Result<(), Stop> {
        let minus = number_at(&self.numbers, place).neg();
        for entry in entries {
            let old = number_at(&self.numbers, entry.at);
            put(
                &mut self.numbers,
                entry.at,
                fused(minus, entry.number, old)?,
            );
        }
        Ok(())
    }

    fn subtract_products(&mut self, entries: &[Entry], place: usize) -> Result<(), Stop> {
        let mut rest = number_at(&self.numbers, place);
        for entry in entries {
            let number = number_at(&self.numbers, entry.at);
            rest = fused(number.neg(), entry.number, rest)?;
        }
        put(&mut self.numbers, place, rest);
        Ok(())
    }
}
