//! Answers of calls on sets of numbers and on relations between numbers.

use number_sets::{NumberRelation, NumberSet};
use std::alloc::Global;
use std::io;
use term_core::NoMemory;

fn set_of(alloc: Global, text: &str) -> Result<NumberSet, NoMemory> {
    let mut set = NumberSet::new(alloc);
    for word in text.split_whitespace() {
        set.insert(word.parse().unwrap_or(0))?;
    }
    Ok(set)
}

fn relation_of(alloc: Global, text: &str) -> Result<NumberRelation, NoMemory> {
    let mut relation = NumberRelation::new(alloc);
    for pair in text.split_whitespace() {
        let (left, right) = pair.split_once(',').unwrap_or((pair, ""));
        relation.insert(alloc, left.parse().unwrap_or(0), right.parse().unwrap_or(0))?;
    }
    Ok(relation)
}

/// What is said of a set, and of it with another.
pub fn print_sets(rt: &HostRuntime, first: &str, second: &str) -> io::Result<()> {
    let alloc = rt.alloc();
    match (set_of(alloc, first), set_of(alloc, second)) {
        (Ok(set), Ok(other)) => {
            println!(rt; "set: {:?}", set.numbers(alloc))?;
            print_members(rt, &set, second)?;
            println!(rt; "first lacking: {:?}", set.first_lacking(&other))?;
            print_joined(rt, set, &other)
        }
        _ => println!(rt; "no memory"),
    }
}

// Which of the numbers of a text are in a set.
fn print_members(rt: &HostRuntime, set: &NumberSet, text: &str) -> io::Result<()> {
    println!(rt; "empty: {}", set.is_empty())?;
    for word in text.split_whitespace() {
        println!(rt; "has {word}: {}", set.has(word.parse().unwrap_or(0)))?;
    }
    Ok(())
}

// What two sets share, also put to other numbers, and what is in one of them.
fn print_joined(rt: &HostRuntime, set: NumberSet, other: &NumberSet) -> io::Result<()> {
    let alloc = rt.alloc();
    let mut all = set;
    if let Ok(mut shared) = all.copy(alloc) {
        shared.keep_shared(other);
        println!(rt; "shared: {:?}", shared.numbers(alloc))?;
    }
    if let Ok(mut put) = NumberSet::alone(alloc, 64) {
        let told = put.insert_shared(&all, other);
        println!(rt; "shared, put to 64: {told:?} {:?}", put.numbers(alloc))?;
    }
    let told = all.insert_all(other);
    println!(rt; "joined: {told:?} {:?}", all.numbers(alloc))
}

fn print_below(rt: &HostRuntime, number: u32) -> io::Result<()> {
    match NumberSet::below(rt.alloc(), number) {
        Ok(below) => println!(rt; "below: {:?}", below.numbers(rt.alloc())),
        Err(_) => println!(rt; "no memory"),
    }
}

/// The sets of each number, and of the numbers below it where they are less than 100.
pub fn print_made(rt: &HostRuntime, text: &str) -> io::Result<()> {
    let alloc = rt.alloc();
    for word in text.split_whitespace() {
        let number: u32 = word.parse().unwrap_or(0);
        if let Ok(alone) = NumberSet::alone(alloc, number) {
            println!(rt; "alone: {:?}", alone.numbers(alloc))?;
        }
        if number < 100 {
            print_below(rt, number)?;
        }
    }
    Ok(())
}

/// What is said of a relation, and of it with another.
pub fn print_relations(rt: &HostRuntime, first: &str, second: &str) -> io::Result<()> {
    let alloc = rt.alloc();
    match (relation_of(alloc, first), relation_of(alloc, second)) {
        (Ok(relation), Ok(by)) => {
            print_relation(rt, "relation", &relation)?;
            println!(rt; "first lacking: {:?}", relation.first_lacking(alloc, &by))?;
            if let Ok(carried) = relation.carried(alloc, &by) {
                print_relation(rt, "carried", &carried)?;
            }
            if let Ok(converse) = relation.converse(alloc) {
                print_relation(rt, "converse", &converse)?;
            }
            if let Ok(shared) = shared(alloc, &relation, &by) {
                print_relation(rt, "shared", &shared)?;
            }
            match joined(alloc, &relation, &by) {
                Ok(joined) => print_relation(rt, "joined", &joined),
                Err(_) => println!(rt; "no memory"),
            }
        }
        _ => println!(rt; "no memory"),
    }
}

// The relation, and at half of each number what its row shares with that of another.
fn shared(
    alloc: Global,
    relation: &NumberRelation,
    other: &NumberRelation,
) -> Result<NumberRelation, NoMemory> {
    let mut shared = relation.copy(alloc)?;
    for left in 0..other.lefts() {
        let left = left as u32;
        if let (Some(first), Some(second)) = (relation.row(left), other.row(left)) {
            shared.insert_shared(alloc, left / 2, first, second)?;
        }
    }
    Ok(shared)
}

fn joined(
    alloc: Global,
    relation: &NumberRelation,
    other: &NumberRelation,
) -> Result<NumberRelation, NoMemory> {
    let mut joined = relation.copy(alloc)?;
    for left in 0..other.lefts() {
        if let Some(row) = other.row(left as u32) {
            joined.insert_all(alloc, left as u32, row)?;
        }
    }
    Ok(joined)
}

// The numbers that are related to some number, with theirs.
fn print_relation(rt: &HostRuntime, name: &str, relation: &NumberRelation) -> io::Result<()> {
    let empty = relation.is_empty();
    println!(rt;
        "{name} of numbers below {}, empty {empty}",
        relation.lefts()
    )?;
    for left in 0..relation.lefts() {
        print_row(rt, left as u32, relation)?;
    }
    Ok(())
}

fn print_row(rt: &HostRuntime, left: u32, relation: &NumberRelation) -> io::Result<()> {
    match (relation.row(left), relation.has_left(left)) {
        (Some(row), true) => println!(rt; "{left} to {:?}", row.numbers(rt.alloc())),
        (None, true) => println!(rt; "{left} without a row"),
        (Some(row), false) if !row.is_empty() => println!(rt; "{left} with a row"),
        (_, false) => Ok(()),
    }
}
