//! The rigid caps of listed terms, each made once for all pairs.
ghost use Rattle.std.specs.Prelude.{IfOk, IfSome};
ghost use Rattle.rewriting.specs.Terms as math;
ghost use Rattle.term_core.specs.View.{view};
ghost use Rattle.noncon_search.specs.Ends.{StandsForCap};

use rule_index::IndexedSystem;
use std::alloc::Global;
use tcap_infeasible::{Cap, FIRST_HOLE, rigid_cap_in};
use term_core::{NoMemory, Term, has_variables_below};

/// The rigid cap of a term, with holes from `FIRST_HOLE` on. Where there is none, a hole stands for it, since neither clashes
/// with any other cap. It is not made where the term has such variables itself.
pub fn cap_of(alloc: Global, sys: &IndexedSystem<'_>, t: &Term) -> Result<Option<Term>, NoMemory>
    requires { math.Fits (view t.now) }
    ensures { IfOk result (λ o. IfSome o (λ u. StandsForCap sys.now (view t.now) (view u))) }
{
    if !has_variables_below(FIRST_HOLE, t) {
        return Ok(None);
    }
    match rigid_cap_in(alloc, sys, t, FIRST_HOLE)? {
        Cap::Capped(cap) => Ok(Some(cap)),
        Cap::TooLarge => Ok(Some(Term::Var(FIRST_HOLE))),
    }
}
