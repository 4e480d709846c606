//! The search for a measure: in the grid of linear interpretations, then among the precedences.
use cc_count::{Budget, Sought};
use cert_model::MeasureCert;
use grid_search::search_grid;
use precedence_search::search_precedences;
use std::alloc::Global;
use term_core::{NoMemory, System};

/// How a search among measures ends.
#[derive(Clone, Copy)]
pub enum MeasureEnd {
    Good,
    NoneGood,
    Spent,
    /// It was not begun, since the one before found a measure, or spent all.
    NotTried,
}

/// How a search among measures ended, and for how many units.
#[derive(Clone, Copy)]
pub struct Tried {
    pub end: MeasureEnd,
    pub units: u64,
}

/// The measure that was found, and what each search came to.
#[derive(Drop)]
pub struct Measured {
    pub found: Option<MeasureCert>,
    pub grid: Tried,
    pub order: Tried,
}

// What a search found, and how it ended.
fn ended<M>(sought: Sought<M>) -> (Option<M>, MeasureEnd) {
    match sought {
        Sought::Found(measure) => (Some(measure), MeasureEnd::Good),
        Sought::Nothing => (None, MeasureEnd::NoneGood),
        Sought::Spent => (None, MeasureEnd::Spent),
    }
}

/// Searches for a measure, whatever else is missing for a certificate.
pub fn find_measure(alloc: Global, sys: &System, units: u64) -> Result<Measured, NoMemory> {
    let mut budget = Budget::new(units);
    let (linear, end) = ended(search_grid(alloc, sys, &mut budget)?);
    let grid = Tried {
        end,
        units: budget.spent(),
    };
    if let Some(linear) = linear {
        return Ok(Measured {
            found: Some(MeasureCert::Linear(linear)),
            grid,
            order: Tried {
                end: MeasureEnd::NotTried,
                units: 0,
            },
        });
    }
    let mut budget = Budget::new(units);
    let (order, end) = ended(search_precedences(alloc, sys, &mut budget)?);
    Ok(Measured {
        found: order.map(MeasureCert::Lpo),
        grid,
        order: Tried {
            end,
            units: budget.spent(),
        },
    })
}
