//! The relation that a term is evaluated to: one that stands somewhere, or one that was made.
ghost use Rattle.std.specs.Prelude.{◌≡◌};
ghost use Rattle.automaton_runs.specs.Relations.{relation_of};

use number_sets::NumberRelation;

// A relation that stands somewhere, or one that was made.
#[derive(Debug, Drop)]
pub(crate) enum Evaluated<'a> {
    Stored(&'a NumberRelation),
    Made(NumberRelation),
}

impl Evaluated<'_> {
    pub(crate) fn relation(&self) -> &NumberRelation
        ensures { result.now ≡ relation_of self.now }
    {
        match self {
            Evaluated::Stored(relation) => relation,
            Evaluated::Made(relation) => relation,
        }
    }
}
