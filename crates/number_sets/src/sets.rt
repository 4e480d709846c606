//! Operations on sets of numbers: insertion, union, intersection, membership, and the first number that another set lacks.
ghost use Rattle.std.specs.Prelude.{◌≡◌, ◌↔◌, ◌⊎◌, ◌<◌, ◌≤◌, ◌+◌, ◌*◌, ◌∷◌, ℕ, [], get_or, vec_len, IfOk, OnOk, IsTrue};
ghost use Rattle.rewriting.specs.Lists.{IsAmong};
ghost use Rattle.number_sets.specs.Sets.{is_set, members, members_below, LackingAnswers};
ghost use Rattle.number_sets.specs.Words.{AreHad, IsFirstLacking};

use crate::words::NumberSet;
use std::alloc::Global;
use term_core::NoMemory;

// The bits of a word.
const BITS: usize = 64;

// The word at a place: past the last one there are no numbers.
fn word_at(words: &[u64], place: usize) -> u64
    ensures { result ≡ get_or words.now place 0 }
{
    words.get(place).copied().unwrap_or(0)
}

// Whether a bit of words is set.
fn bit(words: &[u64], number: usize) -> bool
    ensures { result ≡ is_set words.now number }
{
    (word_at(words, number / BITS) >> (number % BITS)) & 1 == 1
}

// Puts the numbers in the word at a place last.
fn put_word(words: &[u64], place: usize, numbers: &mut Vec<u32>) -> Result<(), NoMemory>
    requires few { place < 67108864 }
    requires front { numbers.old.items ≡ members_below words.now (64 * place) }
    ensures { OnOk result (numbers.new.items ≡ members_below words.now (64 * (place + 1))) }
{
    for number in place * BITS..(place + 1) * BITS {
        if bit(words, number) {
            numbers.push(number as u32)?;
        }
    }
    Ok(())
}

// The first number in the word at a place that the others lack.
fn first_lacking(words: &[u64], others: &[u64], place: usize) -> Option<u32>
    requires few { place < 67108864 }
    requires front { AreHad words.now others.now (64 * place) }
    ensures { IsFirstLacking words.now others.now (64 * (place + 1)) result }
{
    for number in place * BITS..(place + 1) * BITS {
        if bit(words, number) && !bit(others, number) {
            return Some(number as u32);
        }
    }
    None
}

impl NumberSet {
    /// The empty set.
    pub fn new(alloc: Global) -> NumberSet
        ensures { members result ≡ [] }
    {
        NumberSet {
            words: Vec::new(alloc),
        }
    }

    /// The set of one number.
    pub fn alone(alloc: Global, number: u32) -> Result<NumberSet, NoMemory>
        ensures { IfOk result (λ set. members set ≡ number ∷ []) }
    {
        let mut set = NumberSet::new(alloc);
        set.insert(number)?;
        Ok(set)
    }

    /// The set of the numbers below a count.
    pub fn below(alloc: Global, count: u32) -> Result<NumberSet, NoMemory>
        ensures { IfOk result (λ set. (q : ℕ) → IsAmong q (members set) ↔ (q < count)) }
    {
        let mut set = NumberSet::new(alloc);
        for number in 0..count {
            set.insert(number)?;
        }
        Ok(set)
    }

    /// A set of the same numbers.
    pub fn copy(&self, alloc: Global) -> Result<NumberSet, NoMemory>
        ensures { IfOk result (λ set. members set ≡ members self.now) }
    {
        Ok(NumberSet {
            words: Vec::from_slice(alloc, &self.words)?,
        })
    }

    // Makes place for so many words.
    fn lengthen(&mut self, count: usize) -> Result<(), NoMemory>
        requires { count ≤ 67108864 }
        ensures long { OnOk result (count ≤ vec_len self.new.words) }
        ensures same { OnOk result ((k : ℕ) → get_or self.new.words.items k 0 ≡ get_or self.old.words.items k 0) }
    {
        let longer = count.max(self.words.len());
        self.words.resize(longer, 0)?;
        Ok(())
    }

    /// Puts a number into the set.
    pub fn insert(&mut self, number: u32) -> Result<(), NoMemory>
        ensures { OnOk result ((q : ℕ) → IsAmong q (members self.new) ↔ (IsAmong q (members self.old) ⊎ (q ≡ number))) }
    {
        let place = number as usize / BITS;
        self.lengthen(place + 1)?;
        self.words[place] |= 1 << (number % 64);
        Ok(())
    }

    /// Puts the numbers of another set into the set.
    pub fn insert_all(&mut self, other: &NumberSet) -> Result<(), NoMemory>
        ensures { OnOk result ((q : ℕ) → IsAmong q (members self.new) ↔ (IsAmong q (members self.old) ⊎ IsAmong q (members other.now))) }
    {
        self.lengthen(other.words.len())?;
        for place in 0..other.words.len() {
            self.words[place] |= other.words[place];
        }
        Ok(())
    }

    /// Puts the numbers that two other sets share into the set.
    pub fn insert_shared(&mut self, first: &NumberSet, second: &NumberSet) -> Result<(), NoMemory>
        ensures { OnOk result ((q : ℕ) → IsAmong q (members self.new) ↔ (IsAmong q (members self.old) ⊎ (IsAmong q (members first.now) × IsAmong q (members second.now)))) }
    {
        let count = first.words.len().min(second.words.len());
        self.lengthen(count)?;
        for place in 0..count {
            self.words[place] |= first.words[place] & second.words[place];
        }
        Ok(())
    }

    /// Leaves out the numbers that another set has not.
    pub fn keep_shared(&mut self, other: &NumberSet)
        ensures { (q : ℕ) → IsAmong q (members self.new) ↔ (IsAmong q (members self.old) × IsAmong q (members other.now)) }
    {
        self.words.truncate(other.words.len());
        for place in 0..self.words.len() {
            self.words[place] &= word_at(&other.words, place);
        }
    }

    /// Whether the set has a number.
    pub fn has(&self, number: u32) -> bool
        ensures { IsTrue result ↔ IsAmong number (members self.now) }
    {
        bit(&self.words, number as usize)
    }

    /// Whether the set has no number.
    pub fn is_empty(&self) -> bool
        ensures { IsTrue result ↔ (members self.now ≡ []) }
    {
        for word in &self.words {
            if *word != 0 {
                return false;
            }
        }
        true
    }

    /// The numbers in order.
    pub fn numbers(&self, alloc: Global) -> Result<Vec<u32>, NoMemory>
        ensures { IfOk result (λ numbers. numbers.items ≡ members self.now) }
    {
        let mut numbers = Vec::new(alloc);
        for place in 0..self.words.len() {
            if self.words[place] != 0 {
                put_word(&self.words, place, &mut numbers)?;
            }
        }
        Ok(numbers)
    }

    /// The first number that another set lacks.
    pub fn first_lacking(&self, other: &NumberSet) -> Option<u32>
        ensures { LackingAnswers (members self.now) (members other.now) result }
    {
        for place in 0..self.words.len() {
            let others = word_at(&other.words, place);
            if word_at(&self.words, place) | others != others {
                if let Some(number) = first_lacking(&self.words, &other.words, place) {
                    return Some(number);
                }
            }
        }
        None
    }
}
