//! Defined symbols of a conditional system, and constructor terms.
ghost use Rattle.std.specs.Prelude.{◌↔◌, IsTrue};
ghost use Rattle.rewriting.specs.Classes.{IsConstructorTerm, IsDefined};
ghost use Rattle.term_core.specs.View.{view};

use term_core::{System, Term};

// Whether a symbol is the root of a left side.
fn is_defined(sys: &System, symbol: u32) -> bool
    ensures { IsTrue result ↔ IsDefined sys.now.rules symbol }
{
    for rule in sys.rules() {
        if let Term::Fun(f, _) = &rule.left {
            if *f == symbol {
                return true;
            }
        }
    }
    false
}

/// Whether no symbol of the term is the root of a left side.
pub fn is_constructor(sys: &System, t: &Term) -> bool
    ensures { IsTrue result ↔ IsConstructorTerm sys.now (view t.now) }
{
    match t {
        Term::Var(_) => true,
        Term::Fun(f, args) => {
            if is_defined(sys, *f) {
                return false;
            }
            for arg in args {
                if !is_constructor(sys, arg) {
                    return false;
                }
            }
            true
        }
    }
}
