//! All that the program does.
ghost use Rattle.std.specs.Prelude.{◌≡◌, ◌⊎◌};
ghost use Rattle.run_parts.specs.Words.{texts};
ghost use Rattle.run_parts.specs.Devices.{shelf_run, sink_run};
ghost use Rattle.lens_run.specs.Commands.{IsNoCommand};
ghost use Rattle.lens_run.specs.Runs.{IsAnswered, IsSaidFor};
ghost use Rattle.lens_run.specs.Said.{reply_said};

use crate::asked::{Asked, asked_of};
use crate::files::text_of_ari;
use crate::pages::{drawn, shown, skeleton_shown, told};
use crate::reply::{Reply, deliver};
use crate::sought::sought;
use crate::status::Status;
use cc_io::{Shelf, Sink};
use std::alloc::Global;

// What is to be said. Nothing has been written yet.
fn decide<S: Shelf>(alloc: Global, words: &[&str], shelf: &mut S) -> Reply
    ensures { IsSaidFor (texts words.now) (shelf_run S.Shelf shelf.old shelf.new) (reply_said result) }
{
    match asked_of(words) {
        Some(Asked::Show { file }) => shown(alloc, shelf, file),
        Some(Asked::Skeleton { file, kind }) => skeleton_shown(alloc, shelf, file, kind),
        Some(Asked::Tell { file, cert }) => told(alloc, shelf, file, cert),
        Some(Asked::Picture { file, cert }) => drawn(alloc, shelf, file, cert),
        Some(Asked::Ari { file }) => text_of_ari(alloc, shelf, file),
        Some(Asked::Seek { file, units }) => sought(alloc, shelf, file, units),
        None => Reply::Usage,
    }
}

/// Does what the words say: `show FILE` writes the page of a system, with `--skeleton` and a kind behind it the skeleton of a certificate;
/// `tell FILE CERT` judges a certificate and writes it in words, or where it breaks, with `--svg` behind it a peak as a picture; `ari FILE` writes a file of the ARI format in that of `concon`; `seek FILE` searches more widely
/// than `concon prove`, with 1,000,000 units or the number behind `--budget`, and writes what it finds below what that shows.
pub fn run<S: Shelf, K: Sink, E: Sink>(
    alloc: Global,
    words: &[&str],
    shelf: &mut S,
    out: &mut K,
    err: &mut E,
) -> Status
    // One answer is given, for its cause; out and err took its texts, or a proper front of the one that is not empty. A refusal tells its line and its column.
    ensures answer { IsAnswered (texts words.now) result (shelf_run S.Shelf shelf.old shelf.new) (sink_run K.Sink out.old out.new) (sink_run E.Sink err.old err.new) }
    ensures usage { result ≡ Status.Usage → IsNoCommand (texts words.now) }
    ensures usage_exactly { IsNoCommand (texts words.now) → (result ≡ Status.Usage) ⊎ (result ≡ Status.WriteFault) }
    ensures nothing_begun { IsNoCommand (texts words.now) → S.begun shelf.new ≡ S.begun shelf.old }
{
    let reply = decide(alloc, words, shelf);
    deliver(&reply, out, err)
}
