//! The values of terms under a linear interpretation.
use cert_model::LinearEntry;
use lens_pages::{Naming, Page, Piece};
use std::alloc::Global;
use term_core::{NoMemory, Term};

// A constant, and the coefficients of variables. A number that is too large is the greatest one.
#[derive(Drop)]
struct Polynomial {
    constant: u128,
    coefficients: Vec<u128>,
}

impl Polynomial {
    // Adds to the coefficient of a variable.
    fn raise(&mut self, x: u32, by: u128) {
        if let Some(coefficient) = self.coefficients.get_mut(x as usize) {
            *coefficient = coefficient.saturating_add(by);
        }
    }

    // Adds a term's value, so many times.
    fn add(&mut self, entries: &[LinearEntry], factor: u128, t: &Term) {
        match t {
            Term::Var(x) => self.raise(*x, factor),
            Term::Fun(f, args) => {
                let numbers: &[u32] = match entries.get(*f as usize) {
                    Some(entry) => &entry.coeffs,
                    None => &[],
                };
                let constant = number_at(numbers, 0);
                self.constant = self
                    .constant
                    .saturating_add(factor.saturating_mul(constant));
                for (k, arg) in args.iter().enumerate() {
                    let coefficient = number_at(numbers, k.saturating_add(1));
                    self.add(entries, factor.saturating_mul(coefficient), arg);
                }
            }
        }
    }

    // The value of a term with variables below a number.
    fn of_term(
        alloc: Global,
        entries: &[LinearEntry],
        variables: u32,
        t: &Term,
    ) -> Result<Polynomial, NoMemory> {
        let mut value = Polynomial {
            constant: 0,
            coefficients: vec![in alloc; 0; variables as usize]?,
        };
        value.add(entries, 1, t);
        Ok(value)
    }

    // Writes the sum.
    fn tell(&self, page: &mut Page<'_>, naming: Naming) {
        let mut is_first = true;
        if self.constant > 0 {
            tell_number(page, self.constant);
            is_first = false;
        }
        let mut x: u32 = 0;
        for coefficient in &self.coefficients {
            if *coefficient > 0 {
                tell_summand(page, naming, is_first, *coefficient, x);
                is_first = false;
            }
            x = x.saturating_add(1);
        }
        if is_first {
            page.words("0");
        }
    }
}

/// Writes the value of a term with variables below a number.
pub fn tell_value(
    page: &mut Page<'_>,
    naming: Naming,
    entries: &[LinearEntry],
    variables: u32,
    t: &Term,
) {
    let made = Polynomial::of_term(page.alloc, entries, variables, t);
    if let Some(value) = page.got(made) {
        value.tell(page, naming);
    }
}

fn number_at(numbers: &[u32], k: usize) -> u128 {
    match numbers.get(k) {
        Some(number) => u128::from(*number),
        None => 0,
    }
}

fn tell_number(page: &mut Page<'_>, n: u128) {
    if n == u128::MAX {
        page.words("(too large)")
    } else {
        page.large(n)
    }
}

fn tell_summand(page: &mut Page<'_>, naming: Naming, is_first: bool, coefficient: u128, x: u32) {
    if !is_first {
        page.words(" + ");
    }
    if coefficient > 1 {
        tell_number(page, coefficient);
        page.words(" ");
    }
    page.put("#", &[Piece::Variable(naming, x)])
}
