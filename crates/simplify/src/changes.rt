//! What a good step does to a system, and the system after it, made without a copy.
ghost use Rattle.std.specs.Prelude.{◌≡◌};
ghost use Rattle.simplify.specs.Changes.{IsChangeOf, after};

use term_core::{Rule, System};

/// The rule behind the first `place` goes, and where there is a rule here, it comes in its place.
#[derive(Debug, Drop)]
pub struct Change {
    pub place: usize,
    pub rule: Option<Rule>,
}

/// The system after a change of it.
pub fn changed(sys: System, change: Change) -> System
    requires { IsChangeOf sys change }
    ensures { result ≡ after sys change }
{
    let Change { place, rule } = change;
    let (arities, mut rules, own) = sys.into_parts();
    match rule {
        None => {
            let _gone = rules.remove(place);
            System::of_parts(arities, rules, own)
        }
        Some(new) => {
            rules[place] = new;
            System::of_parts(arities, rules, own)
        }
    }
}
