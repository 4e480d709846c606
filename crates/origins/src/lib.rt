//! Where listed terms come from: each by one step from an earlier one. Origins are shared, and a derivation is made of one only where it is asked for.
#![tactic(auto)]

ghost use Rattle.std.specs.Prelude.{◌≡◌, IfOk, map};
ghost use Rattle.cert_model.specs.DerivationView.{derivation_view};
ghost use Rattle.origins.specs.OriginView.{origin_view, way_view};

use cert_model::{Derivation, Step, copy_numbers};
use std::alloc::Global;
use std::rc::Rc;
use term_core::NoMemory;

/// How a listed term was reached: it is the start, or one step leads to it from an earlier term. A step by a rule has the origins of the
/// terms by which its conditions are met. Rules and hypotheses are numbered from 1.
#[cycle(origin)]
#[derive(Drop)]
pub enum Way {
    Start,
    Rule {
        from: Origin,
        rule: u32,
        pos: Vec<u32>,
        conds: Vec<Origin>,
    },
    Hyp {
        from: Origin,
        number: u32,
        pos: Vec<u32>,
    },
}

/// Where a listed term comes from, shared by all that comes from it.
#[cycle(origin)]
#[derive(Drop)]
pub struct Origin {
    way: Rc<Way>,
}

// The derivation of a term that was reached so.
#[cycle(derivation)]
fn made(alloc: Global, way: &Way) -> Result<Derivation, NoMemory>
    ensures { IfOk result (λ d. derivation_view d ≡ way_view way.now) }
{
    match way {
        Way::Start => Ok(Derivation {
            steps: Vec::new(alloc),
        }),
        Way::Rule {
            from,
            rule,
            pos,
            conds,
        } => {
            let mut by = from.derivation(alloc)?;
            by.steps.push(Step::Rule {
                rule: *rule,
                pos: copy_numbers(alloc, pos)?,
                conds: derivations(alloc, conds)?,
            })?;
            Ok(by)
        }
        Way::Hyp { from, number, pos } => {
            let mut by = from.derivation(alloc)?;
            by.steps.push(Step::Hyp {
                number: *number,
                pos: copy_numbers(alloc, pos)?,
            })?;
            Ok(by)
        }
    }
}

impl Origin {
    /// The origin of a term that is reached so.
    pub fn new(alloc: Global, way: Way) -> Result<Origin, NoMemory>
        ensures { IfOk result (λ o. origin_view o ≡ way_view way) }
    {
        Ok(Origin {
            way: Rc::new(alloc, way)?,
        })
    }

    /// The same origin, shared once more.
    pub fn share(&self) -> Result<Origin, NoMemory>
        ensures { IfOk result (λ o. origin_view o ≡ origin_view self.now) }
    {
        Ok(Origin {
            way: self.way.clone()?,
        })
    }

    /// The derivation of a term that comes from there.
    #[cycle(derivation)]
    pub fn derivation(&self, alloc: Global) -> Result<Derivation, NoMemory>
        ensures { IfOk result (λ d. derivation_view d ≡ origin_view self.now) }
    {
        made(alloc, &self.way)
    }
}

/// The derivations of terms that come from some origins.
#[cycle(derivation)]
pub fn derivations(alloc: Global, origins: &[Origin]) -> Result<Vec<Derivation>, NoMemory>
    ensures { IfOk result (λ ds. map derivation_view ds.items ≡ map origin_view origins.now) }
{
    let mut all = Vec::with_capacity(alloc, origins.len())?;
    'origins: for origin in origins {
        all.push(origin.derivation(alloc)?)?;
    }
    Ok(all)
}

/// The same origins, shared once more.
pub fn share_all(alloc: Global, origins: &[Origin]) -> Result<Vec<Origin>, NoMemory>
    ensures { IfOk result (λ os. map origin_view os.items ≡ map origin_view origins.now) }
{
    let mut all = Vec::with_capacity(alloc, origins.len())?;
    'origins: for origin in origins {
        all.push(origin.share()?)?;
    }
    Ok(all)
}
