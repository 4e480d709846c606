//! The text of symbols by name, of terms, of positions, of numbers behind a byte, and of derivations: a line for each step, with
//! the derivations of its conditions behind it.
ghost use Rattle.rewriting.specs.Terms as math;
ghost use Rattle.term_core.specs.View.{view, views};
ghost use Rattle.cert_model.specs.DerivationView.{derivation_view, step_view};
ghost use Rattle.cert_grammar.specs.Steps.{derivation_text, step_text};
ghost use Rattle.cert_grammar.specs.Words.{name_of, term_text, arguments_text, each_behind, position_text};
ghost use Rattle.cert_writing.specs.WrittenUses.{uses_view};

use crate::output::Output;
use crate::parts::Part;
use crate::written_evidence::Uses;
use cert_model::{Derivation, Step};
use cops_names::Names;
use term_core::Term;

/// The name of a symbol; a symbol without a name gives nothing.
#[derive(Drop)]
pub struct Name(pub u32);

impl Part for Name {
    ghost text = { λ names uses n. name_of names n.0 };

    fn put<O: Output>(&self, to: &mut O, names: &Names, _uses: &Uses<'_>) {
        to.put(names.symbol_name(self.0).unwrap_or("").as_bytes());
    }
}

/// Numbers with a byte before each.
#[derive(Drop)]
pub struct Behind<'a>(pub u8, pub &'a [u32]);

impl Part for Behind<'_> {
    ghost text = { λ names uses b. each_behind b.0 b.1.now };

    fn put<O: Output>(&self, to: &mut O, names: &Names, uses: &Uses<'_>) {
        'numbers: for number in self.1 {
            to.put(&[self.0]);
            (number).put(to, names, uses);
        }
    }
}

/// A position: the root is `e`, the numbers of others stand with dots between them.
#[derive(Drop)]
pub struct Position<'a>(pub &'a Vec<u32>);

impl Part for Position<'_> {
    ghost text = { λ names uses p. position_text p.0.now.items };

    fn put<O: Output>(&self, to: &mut O, names: &Names, uses: &Uses<'_>) {
        match self.0.as_slice() {
            [] => to.put(b"e"),
            [first, rest @ ..] => (first, Behind(b'.', rest)).put(to, names, uses),
        }
    }
}

/// The recursion goes as deep as the term.
impl Part for Term {
    ghost text = { λ names uses t. term_text names (view t) };

    #[cycle(term)]
    fn put<O: Output>(&self, to: &mut O, names: &Names, uses: &Uses<'_>) {
        match self {
            Term::Var(x) => ("|", x).put(to, names, uses),
            Term::Fun(f, args) => {
                Name(*f).put(to, names, uses);
                put_arguments(to, names, uses, args);
            }
        }
    }
}

// The arguments of a symbol, in brackets if there are any.
#[cycle(term)]
fn put_arguments<O: Output>(to: &mut O, names: &Names, uses: &Uses<'_>, args: &[Term])
    ensures { O.took to.old (arguments_text names.now (views args.now)) to.new }
{
    if let [first, rest @ ..] = args {
        ("(", first).put(to, names, uses);
        'further: for arg in rest {
            to.put(b",");
            arg.put(to, names, uses);
        }
        to.put(b")");
    }
}

/// The recursion goes as deep as derivations are nested.
impl Part for Derivation {
    ghost text = { λ names uses d. derivation_text (derivation_view d) };

    #[cycle(derivation)]
    fn put<O: Output>(&self, to: &mut O, names: &Names, uses: &Uses<'_>) {
        put!(to, names, uses; "steps ", self.steps.len(), "\n");
        self.steps.put(to, names, uses);
    }
}

/// The line of a step by a rule tells the rule, the position, and how many derivations follow.
impl Part for Step {
    ghost text = { λ names uses s. step_text (step_view s) };

    #[cycle(derivation)]
    fn put<O: Output>(&self, to: &mut O, names: &Names, uses: &Uses<'_>) {
        match self {
            Step::Rule { rule, pos, conds } => {
                put!(to, names, uses; "rule ", rule, " ", Position(pos), " ", conds.len(), "\n");
                conds.put(to, names, uses);
            }
            Step::Hyp { number, pos } =>
                put!(to, names, uses; "hyp ", number, " ", Position(pos), "\n"),
        }
    }
}
