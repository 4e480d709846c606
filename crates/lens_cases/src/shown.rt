//! Pages on systems, and certificates to be filled: a line of `shown.txt` has the name of a system's file, and the units for each space or the kind of
//! a certificate.
use cops_read::{Names, read_system};
use shown_systems::{SkeletonKind, show, skeleton};
use std::alloc::Global;
use std::{fs, io};
use term_core::{NoMemory, System};

// What a case asks for: a page, with so many units for each space, or a certificate to be filled.
enum Asked {
    Page(u64),
    Skeleton(SkeletonKind),
}

fn asked_of(word: &str) -> Asked {
    match word {
        "ortho" => Asked::Skeleton(SkeletonKind::Ortho),
        "quasi" => Asked::Skeleton(SkeletonKind::Quasi),
        "peak" => Asked::Skeleton(SkeletonKind::Peak),
        _ => Asked::Page(word.parse().unwrap_or(0)),
    }
}

fn text_of(alloc: Global, sys: &System, names: &Names, asked: Asked) -> Result<Vec<u8>, NoMemory> {
    match asked {
        Asked::Page(units) => show(alloc, sys, names, units),
        Asked::Skeleton(kind) => skeleton(alloc, sys, names, kind),
    }
}

fn print_text(rt: &HostRuntime, bytes: &[u8]) -> io::Result<()> {
    let text = String::from_utf8_lossy(rt.alloc(), bytes)?;
    for line in text.lines() {
        println!(rt; "{line}")?;
    }
    Ok(())
}

fn print_case(rt: &HostRuntime, line: &str) -> io::Result<()> {
    println!(rt; "==== {line}")?;
    let (name, word) = line.split_once(' ').unwrap_or((line, ""));
    let bytes = fs::read(rt, name)?;
    let Ok((sys, names)) = read_system(rt.alloc(), &bytes) else {
        return println!(rt; "no system");
    };
    match text_of(rt.alloc(), &sys, &names, asked_of(word)) {
        Ok(text) => print_text(rt, &text),
        Err(e) => println!(rt; "{e:?}"),
    }
}

/// Prints the pages.
pub fn print_pages(rt: &HostRuntime) -> io::Result<()> {
    let text = fs::read_to_string(rt, "shown.txt")?;
    for line in text.as_str().lines() {
        print_case(rt, line)?;
    }
    Ok(())
}
