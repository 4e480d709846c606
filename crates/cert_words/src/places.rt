//! Positions.

ghost use Rattle.std.specs.Prelude.{◌≡◌, ◌≤◌, ◌+◌, ◌-◌, ℕ, List, [], ◌∷◌, length};
ghost use Rattle.cops_names.specs.NameTable.{NameTable};
ghost use Rattle.cert_grammar.specs.Prelude.{position, places_text, places, Item, leads};
ghost use Rattle.cert_grammar.specs.Items as spec;
ghost use Rattle.cert_words.specs.Walks.{Reads, IsPlaces};

use crate::choices::{first, judged};
use crate::demands::LARGEST;
use crate::error::CertError;
use crate::leads::Lead;
use crate::reading::Reading;
use cert_grammar::behind;
use std::alloc::Global;

// The numbers of the position that the word spells, or why they are none.
fn places_of(alloc: Global, word: &[u8], at: usize) -> Result<Vec<u32>, CertError>
    requires small { at + length word.now ≤ usize.MAX }
    requires spelt { word.now ≡ places_text (places word.now) }
    ensures { (names : NameTable) → IsPlaces names at (places word.now) result }
{
    let mut parts = Vec::new(alloc);
    if behind(word, b"e").is_some() {
        return Ok(parts);
    }
    let mut begins = 0;
    let mut value: u64 = 0;
    'bytes: for (place, b) in word.iter().enumerate() {
        if *b != b'.' {
            value = 10 * value + (*b as u64).saturating_sub(48);
            if value > LARGEST {
                return Err(CertError::BadNumber { at: at + begins });
            }
        } else if value > 0 {
            parts.push(value as u32)?;
            begins = place + 1;
            value = 0;
        } else {
            return Err(CertError::BadNumber { at: at + begins });
        }
    }
    if value == 0 {
        return Err(CertError::BadNumber { at: at + begins });
    }
    parts.push(value as u32)?;
    Ok(parts)
}

/// A position.
pub fn position(alloc: Global, end: usize, at: &mut Reading) -> Vec<u32>
    ensures { (names : NameTable) (i : Item) (new : List Item) → leads i ≡ spec.position_lead new ∷ [] → Reads names end (i ∷ []) (λ u. position result.items ∷ []) new at.old at.new }
{
    let Some(found) = first(end, at, &[Lead::Position]) else {
        return Vec::new(alloc);
    };
    match places_of(alloc, found.word, found.here) {
        Ok(places) => {
            judged(at, found, None);
            places
        }
        Err(refused) => {
            at.refused = Some(refused);
            Vec::new(alloc)
        }
    }
}
