//! What the words of the command line ask for.
ghost use Rattle.std.specs.Prelude.{◌≡◌, List, ℕ, MatchOption, IfSome, IfNone};
ghost use Rattle.shown_systems.specs.declared.skeletons.SkeletonKind.{SkeletonKind};
ghost use Rattle.run_parts.specs.Words.{texts};
ghost use Rattle.lens_run.specs.Commands.{skeleton, seek, kind_word, command_view, IsCommand, IsNoCommand};

use run_parts::{USUAL_BUDGET, around_option, before_option, budget_of, one_word, two_words};
use shown_systems::SkeletonKind;

/// What is to be written.
#[derive(Clone, Copy)]
pub enum Asked<'a> {
    /// The page of a file.
    Show { file: &'a str },
    /// The skeleton of a certificate for it.
    Skeleton { file: &'a str, kind: SkeletonKind },
    /// A certificate in words.
    Tell { file: &'a str, cert: &'a str },
    /// A peak as a picture.
    Picture { file: &'a str, cert: &'a str },
    /// A file in the other format, in that of `concon`.
    Ari { file: &'a str },
    /// What a wider search finds for it.
    Seek { file: &'a str, units: u64 },
}

// The kind of certificate that a word names.
fn kind_of(word: &str) -> Option<SkeletonKind>
    ensures { MatchOption result ((kind : SkeletonKind) → word.now ≡ kind_word kind → ⊥) (λ kind. word.now ≡ kind_word kind) }
{
    if word == "ortho" {
        return Some(SkeletonKind::Ortho);
    }
    if word == "quasi" {
        return Some(SkeletonKind::Quasi);
    }
    if word == "peak" {
        return Some(SkeletonKind::Peak);
    }
    None
}

// The skeleton that the words ask for.
fn skeleton_of<'a>(words: &[&'a str]) -> Option<Asked<'a>>
    ensures found { IfSome result (λ asked. IsCommand (texts words.now) (command_view asked)) }
    ensures none { IfNone result ((file : List ℕ) (kind : SkeletonKind) → IsCommand (texts words.now) (skeleton file kind) → ⊥) }
{
    let (file, word) = around_option(words, "show", "--skeleton")?;
    let kind = kind_of(word)?;
    Some(Asked::Skeleton { file, kind })
}

// The wider search that the words ask for.
fn seek_of<'a>(words: &[&'a str]) -> Option<Asked<'a>>
    ensures found { IfSome result (λ asked. IsCommand (texts words.now) (command_view asked)) }
    ensures none { IfNone result ((file : List ℕ) (units : ℕ) → IsCommand (texts words.now) (seek file units) → ⊥) }
{
    if let Some(file) = one_word(words, "seek") {
        return Some(Asked::Seek {
            file,
            units: USUAL_BUDGET,
        });
    }
    let (file, word) = around_option(words, "seek", "--budget")?;
    let units = budget_of(word)?;
    Some(Asked::Seek { file, units })
}

/// The command that the words are.
pub fn asked_of<'a>(words: &[&'a str]) -> Option<Asked<'a>>
    ensures found { IfSome result (λ asked. IsCommand (texts words.now) (command_view asked)) }
    ensures none { IfNone result (IsNoCommand (texts words.now)) }
{
    if let Some(file) = one_word(words, "show") {
        return Some(Asked::Show { file });
    }
    if let Some((file, cert)) = two_words(words, "tell") {
        return Some(Asked::Tell { file, cert });
    }
    if let Some((file, cert)) = before_option(words, "tell", "--svg") {
        return Some(Asked::Picture { file, cert });
    }
    if let Some(file) = one_word(words, "ari") {
        return Some(Asked::Ari { file });
    }
    if let Some(asked) = seek_of(words) {
        return Some(asked);
    }
    skeleton_of(words)
}
