//! Words of a command line, and those that are numbers.
ghost use Rattle.std.specs.Prelude.{◌≡◌, ◌∷◌, [], List, ℕ, MatchOption, IfSome, IfNone};
ghost use Rattle.run_parts.specs.Words.{texts, IsBudget};

use itoa::Buffer;

/// The word behind a command.
pub fn one_word<'a>(words: &[&'a str], command: &str) -> Option<&'a str>
    ensures found { IfSome result (λ file. texts words.now ≡ command.now ∷ file.now ∷ []) }
    ensures none { IfNone result ((file : List ℕ) → texts words.now ≡ command.now ∷ file ∷ [] → ⊥) }
{
    let [first, file] = words else {
        return None;
    };
    if *first != command {
        return None;
    }
    Some(*file)
}

/// The two words behind a command.
pub fn two_words<'a>(words: &[&'a str], command: &str) -> Option<(&'a str, &'a str)>
    ensures found { IfSome result (λ w. texts words.now ≡ command.now ∷ w.0.now ∷ w.1.now ∷ []) }
    ensures none { IfNone result ((file other : List ℕ) → texts words.now ≡ command.now ∷ file ∷ other ∷ [] → ⊥) }
{
    let [first, file, other] = words else {
        return None;
    };
    if *first != command {
        return None;
    }
    Some((*file, *other))
}

/// The words before and behind an option.
pub fn around_option<'a>(
    words: &[&'a str],
    command: &str,
    option: &str,
) -> Option<(&'a str, &'a str)>
    ensures found { IfSome result (λ w. texts words.now ≡ command.now ∷ w.0.now ∷ option.now ∷ w.1.now ∷ []) }
    ensures none { IfNone result ((file word : List ℕ) → texts words.now ≡ command.now ∷ file ∷ option.now ∷ word ∷ [] → ⊥) }
{
    let [first, file, third, word] = words else {
        return None;
    };
    if *first != command {
        return None;
    }
    if *third != option {
        return None;
    }
    Some((*file, *word))
}

/// The two words before an option.
pub fn before_option<'a>(
    words: &[&'a str],
    command: &str,
    option: &str,
) -> Option<(&'a str, &'a str)>
    ensures found { IfSome result (λ w. texts words.now ≡ command.now ∷ w.0.now ∷ w.1.now ∷ option.now ∷ []) }
    ensures none { IfNone result ((file other : List ℕ) → texts words.now ≡ command.now ∷ file ∷ other ∷ option.now ∷ [] → ⊥) }
{
    let [first, file, other, fourth] = words else {
        return None;
    };
    if *first != command {
        return None;
    }
    if *fourth != option {
        return None;
    }
    Some((*file, *other))
}

/// The two words before an option, and the one behind it.
pub fn two_around_option<'a>(
    words: &[&'a str],
    command: &str,
    option: &str,
) -> Option<(&'a str, &'a str, &'a str)>
    ensures found { IfSome result (λ w. texts words.now ≡ command.now ∷ w.0.now ∷ w.1.now ∷ option.now ∷ w.2.now ∷ []) }
    ensures none { IfNone result ((file other word : List ℕ) → texts words.now ≡ command.now ∷ file ∷ other ∷ option.now ∷ word ∷ [] → ⊥) }
{
    let [first, file, other, fourth, word] = words else {
        return None;
    };
    if *first != command {
        return None;
    }
    if *fourth != option {
        return None;
    }
    Some((*file, *other, *word))
}

/// How many units a search has that is given no budget.
pub const USUAL_BUDGET: u64 = 1_000_000;

// No budget is greater.
const MOST_UNITS: u64 = 9_223_372_036_854_775_807;

/// The budget that a word is in decimal.
pub fn budget_of(word: &str) -> Option<u64>
    ensures { MatchOption result ((n : ℕ) → IsBudget word.now n → ⊥) (IsBudget word.now) }
{
    let Ok(n) = word.parse::<u64>() else {
        return None;
    };
    if n > MOST_UNITS {
        return None;
    }
    let mut buffer = Buffer::new();
    if buffer.format(n) == word {
        Some(n)
    } else {
        None
    }
}
