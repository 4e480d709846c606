//! The pages of the commands.
ghost use Rattle.run_parts.specs.Devices.{shelf_run, HasFailed};
ghost use Rattle.run_parts.specs.Bytes.{told_or_any};
ghost use Rattle.lens_run.specs.Runs.{IsShown, IsToldOf, IsDrawnOf};
ghost use Rattle.lens_run.specs.Said.{reply_said};

use crate::files::{certificate_of, system_of};
use crate::judged::judged_page;
use crate::reply::Reply;
use cc_io::Shelf;
use cops_read::one_reading;
use run_parts::USUAL_BUDGET;
use shown_systems::{SkeletonKind, show, skeleton};
use std::alloc::Global;
use term_core::NoMemory;
use told_certificates::svg;

/// The page of a file's system.
pub fn shown<S: Shelf>(alloc: Global, shelf: &mut S, file: &str) -> Reply
    ensures { IsShown (told_or_any (S.contents shelf.old file.now)) (HasFailed (shelf_run S.Shelf shelf.old shelf.new) file.now) file.now (reply_said result) }
{
    let (sys, names) = match system_of(alloc, shelf, file) {
        Ok(found) => found,
        Err(reply) => return reply,
    };
    // (each space has as many units as `concon` has for all)
    match show(alloc, &sys, &names, USUAL_BUDGET) {
        Ok(page) => Reply::Page(page),
        Err(NoMemory) => Reply::NoMemory,
    }
}

/// The skeleton of a certificate for a file's system.
pub fn skeleton_shown<S: Shelf>(
    alloc: Global,
    shelf: &mut S,
    file: &str,
    kind: SkeletonKind,
) -> Reply
    ensures { IsShown (told_or_any (S.contents shelf.old file.now)) (HasFailed (shelf_run S.Shelf shelf.old shelf.new) file.now) file.now (reply_said result) }
{
    let (sys, names) = match system_of(alloc, shelf, file) {
        Ok(found) => found,
        Err(reply) => return reply,
    };
    match skeleton(alloc, &sys, &names, kind) {
        Ok(page) => Reply::Page(page),
        Err(NoMemory) => Reply::NoMemory,
    }
}

/// A certificate for a file's system in words, behind what its check shows.
pub fn told<S: Shelf>(alloc: Global, shelf: &mut S, file: &str, cert: &str) -> Reply
    ensures { IsToldOf (told_or_any (S.contents shelf.old file.now)) (HasFailed (shelf_run S.Shelf shelf.old shelf.new) file.now) file.now
        (told_or_any (S.contents shelf.old cert.now)) (HasFailed (shelf_run S.Shelf shelf.old shelf.new) cert.now) cert.now (reply_said result) }
{
    one_reading();
    let (sys, names) = match system_of(alloc, shelf, file) {
        Ok(found) => found,
        Err(reply) => return reply,
    };
    let found = match certificate_of(alloc, shelf, cert, &names) {
        Ok(found) => found,
        Err(reply) => return reply,
    };
    match judged_page(alloc, &sys, &names, &found) {
        Ok(page) => Reply::Page(page),
        Err(NoMemory) => Reply::NoMemory,
    }
}

/// A peak for a file's system as a picture.
pub fn drawn<S: Shelf>(alloc: Global, shelf: &mut S, file: &str, cert: &str) -> Reply
    ensures { IsDrawnOf (told_or_any (S.contents shelf.old file.now)) (HasFailed (shelf_run S.Shelf shelf.old shelf.new) file.now) file.now
        (told_or_any (S.contents shelf.old cert.now)) (HasFailed (shelf_run S.Shelf shelf.old shelf.new) cert.now) cert.now (reply_said result) }
{
    let (sys, names) = match system_of(alloc, shelf, file) {
        Ok(found) => found,
        Err(reply) => return reply,
    };
    let found = match certificate_of(alloc, shelf, cert, &names) {
        Ok(found) => found,
        Err(reply) => return reply,
    };
    match svg(alloc, &sys, &names, &found) {
        Ok(page) => Reply::Page(page),
        Err(NoMemory) => Reply::NoMemory,
    }
}
