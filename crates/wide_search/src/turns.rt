//! Values for the variables of a term, told by numbers that turn like those of an odometer.
use std::alloc::Global;
use term_core::{NoMemory, Subst, Term, try_clone};

/// For each variable 0, where it stays, or the number of a ground term, from 1. The first of them turns fastest.
#[derive(Debug, Drop)]
pub(crate) struct Turns {
    numbers: Vec<usize>,
    last: usize,
}

impl Turns {
    /// So many numbers, each 0.
    pub(crate) fn new(alloc: Global, count: usize, last: usize) -> Result<Turns, NoMemory> {
        let mut numbers = Vec::with_capacity(alloc, count)?;
        'numbers: for _ in 0..count {
            numbers.push(0)?;
        }
        Ok(Turns { numbers, last })
    }

    /// Turns to the next numbers; false where these were the last ones.
    pub(crate) fn turn(&mut self) -> bool {
        let last = self.last;
        'places: for number in self.numbers.iter_mut() {
            if *number < last {
                *number += 1;
                return true;
            }
            *number = 0;
        }
        false
    }

    /// Whether some number is greater than this one.
    pub(crate) fn is_above(&self, before: usize) -> bool {
        'places: for number in &self.numbers {
            if *number > before {
                return true;
            }
        }
        false
    }

    /// The values to which the numbers have turned.
    pub(crate) fn values(
        &self,
        alloc: Global,
        vars: &[u32],
        terms: &[Term],
    ) -> Result<Subst, NoMemory> {
        let mut values = Subst::new(alloc);
        'vars: for (x, number) in vars.iter().zip(self.numbers.iter()) {
            if *number == 0 {
                continue;
            }
            if let Some(term) = terms.get(*number - 1) {
                values.bind(*x, try_clone(alloc, term)?)?;
            }
        }
        Ok(values)
    }
}
