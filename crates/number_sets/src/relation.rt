//! Operations on relations between numbers: insertion, the converse, other numbers on the left, and the first pair that another lacks.
ghost use Rattle.std.specs.Prelude.{◌≡◌, ◌↔◌, ◌⊎◌, ◌<◌, ◌≤◌, ℕ, IfOk, OnOk, IsTrue, vec_len};
ghost use Rattle.rewriting.specs.Lists.{IsAmong};
ghost use Rattle.number_sets.specs.Sets.{members, LackingAnswers};
ghost use Rattle.number_sets.specs.Relation.{row_of, members_at, Relates, PairAnswers, earlier_pair};

use crate::rows::NumberRelation;
use crate::words::NumberSet;
use std::alloc::Global;
use term_core::NoMemory;

// The earlier of two pairs by their right numbers; the first where these are equal.
fn earlier(first: Option<(u32, u32)>, left: u32, right: u32) -> Option<(u32, u32)>
    ensures { result ≡ earlier_pair first left right }
{
    match first {
        Some((_, least)) if least <= right => first,
        _ => Some((left, right)),
    }
}

impl NumberRelation {
    /// The empty relation.
    pub fn new(alloc: Global) -> NumberRelation
        ensures { (p q : ℕ) → Relates result p q → ⊥ }
    {
        NumberRelation {
            rows: Vec::new(alloc),
        }
    }

    /// A relation of the same numbers.
    pub fn copy(&self, alloc: Global) -> Result<NumberRelation, NoMemory>
        ensures { IfOk result (λ r. (p q : ℕ) → Relates r p q ↔ Relates self.now p q) }
    {
        let mut rows = Vec::with_capacity(alloc, self.rows.len())?;
        for row in &self.rows {
            rows.push(row.copy(alloc)?)?;
        }
        Ok(NumberRelation { rows })
    }

    /// The set of the numbers to which a number is related; it may be absent where there is none.
    pub fn row(&self, left: u32) -> Option<&NumberSet>
        ensures { members_at result ≡ row_of self.now left }
    {
        self.rows.get(left as usize)
    }

    /// A bound of the numbers that are related to some.
    pub fn lefts(&self) -> usize
        ensures above { (p q : ℕ) → Relates self.now p q → p < result }
        ensures most { result ≤ 4294967296 }
    {
        self.rows.len()
    }

    /// Whether a number is related to some.
    pub fn has_left(&self, left: u32) -> bool
        ensures { IsTrue result ↔ ((q : ℕ) × Relates self.now left q) }
    {
        match self.row(left) {
            Some(row) => !row.is_empty(),
            None => false,
        }
    }

    /// Whether no number is related to any.
    pub fn is_empty(&self) -> bool
        ensures { IsTrue result ↔ ((p q : ℕ) → Relates self.now p q → ⊥) }
    {
        for row in &self.rows {
            if !row.is_empty() {
                return false;
            }
        }
        true
    }

    // Makes place for so many rows.
    fn lengthen(&mut self, alloc: Global, count: usize) -> Result<(), NoMemory>
        requires { count ≤ 4294967296 }
        ensures long { OnOk result (count ≤ vec_len self.new.rows) }
        ensures same { OnOk result ((p : ℕ) → row_of self.new p ≡ row_of self.old p) }
    {
        'rows: for _ in self.rows.len()..count {
            self.rows.push(NumberSet::new(alloc))?;
        }
        Ok(())
    }

    /// Relates a number to another.
    pub fn insert(&mut self, alloc: Global, left: u32, right: u32) -> Result<(), NoMemory>
        ensures { OnOk result ((p q : ℕ) → Relates self.new p q ↔ (Relates self.old p q ⊎ ((p ≡ left) × (q ≡ right)))) }
    {
        let place = left as usize;
        self.lengthen(alloc, place + 1)?;
        self.rows[place].insert(right)
    }

    /// Relates a number to all of a set.
    pub fn insert_all(&mut self, alloc: Global, left: u32, set: &NumberSet) -> Result<(), NoMemory>
        ensures { OnOk result ((p q : ℕ) → Relates self.new p q ↔ (Relates self.old p q ⊎ ((p ≡ left) × IsAmong q (members set.now)))) }
    {
        let place = left as usize;
        self.lengthen(alloc, place + 1)?;
        self.rows[place].insert_all(set)
    }

    /// Relates a number to all that two sets share.
    pub fn insert_shared(
        &mut self,
        alloc: Global,
        left: u32,
        first: &NumberSet,
        second: &NumberSet,
    ) -> Result<(), NoMemory>
        ensures { OnOk result ((p q : ℕ) → Relates self.new p q ↔ (Relates self.old p q ⊎ ((p ≡ left) × (IsAmong q (members first.now) × IsAmong q (members second.now))))) }
    {
        let place = left as usize;
        self.lengthen(alloc, place + 1)?;
        self.rows[place].insert_shared(first, second)
    }

    // The first number to which one is related here and not in the other.
    fn first_lacking_at(&self, alloc: Global, other: &NumberRelation, left: u32) -> Option<u32>
        ensures { LackingAnswers (row_of self.now left) (row_of other.now left) result }
    {
        let none = NumberSet::new(alloc);
        let row = self.row(left).unwrap_or(&none);
        row.first_lacking(other.row(left).unwrap_or(&none))
    }

    /// The first pair that another relation lacks, in order by the right number, then the left.
    pub fn first_lacking(&self, alloc: Global, other: &NumberRelation) -> Option<(u32, u32)>
        ensures { PairAnswers self.now other.now result }
    {
        let mut first = None;
        for left in 0..self.lefts() {
            let left = left as u32;
            if let Some(right) = self.first_lacking_at(alloc, other, left) {
                first = earlier(first, left, right);
            }
        }
        first
    }

    // Relates each of some numbers to all of a set.
    fn insert_each(&mut self, alloc: Global, lefts: &[u32], set: &NumberSet) -> Result<(), NoMemory>
        ensures { OnOk result ((p q : ℕ) → Relates self.new p q ↔ (Relates self.old p q ⊎ (IsAmong p lefts.now × IsAmong q (members set.now)))) }
    {
        for left in lefts {
            self.insert_all(alloc, *left, set)?;
        }
        Ok(())
    }

    /// The relation with other numbers on its left side: those to which another relation relates the ones here.
    pub fn carried(&self, alloc: Global, by: &NumberRelation) -> Result<NumberRelation, NoMemory>
        ensures { IfOk result (λ r. (p q : ℕ) → Relates r p q ↔ ((s : ℕ) × Relates by.now s p × Relates self.now s q)) }
    {
        let mut made = NumberRelation::new(alloc);
        for left in 0..self.lefts() {
            let left = left as u32;
            if let Some(row) = self.row(left) {
                if let Some(lefts) = by.row(left) {
                    made.insert_each(alloc, &lefts.numbers(alloc)?, row)?;
                }
            }
        }
        Ok(made)
    }

    /// The relation from right to left.
    pub fn converse(&self, alloc: Global) -> Result<NumberRelation, NoMemory>
        ensures { IfOk result (λ r. (p q : ℕ) → Relates r p q ↔ Relates self.now q p) }
    {
        let mut made = NumberRelation::new(alloc);
        for left in 0..self.lefts() {
            let left = left as u32;
            if let Some(row) = self.row(left) {
                let alone = NumberSet::alone(alloc, left)?;
                made.insert_each(alloc, &row.numbers(alloc)?, &alone)?;
            }
        }
        Ok(made)
    }
}
