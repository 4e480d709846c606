//! The search for a measure: the interpretations of the smaller search, the precedences, then interpretations with greater numbers.
use crate::grid::search_wide_grid;
use crate::shares::{part_of, settle};
use cc_count::{Budget, Sought};
use cert_model::{Linear, MeasureCert};
use grid_search::search_grid;
use precedence_search::search_precedences;
use std::alloc::Global;
use term_core::{Head, NoMemory, System};

// What a search for an interpretation found.
fn of_grid(found: Sought<Linear>) -> Sought<MeasureCert> {
    match found {
        Sought::Found(linear) => Sought::Found(MeasureCert::Linear(linear)),
        Sought::Nothing => Sought::Nothing,
        Sought::Spent => Sought::Spent,
    }
}

// What a search for a precedence found.
fn of_precedences(found: Sought<Vec<Head>>) -> Sought<MeasureCert> {
    match found {
        Sought::Found(order) => Sought::Found(MeasureCert::Lpo(order)),
        Sought::Nothing => Sought::Nothing,
        Sought::Spent => Sought::Spent,
    }
}

// The ways to look for a measure.
#[derive(Clone, Copy, Debug, PartialEq, Eq)]
enum Way {
    Grid,
    Precedences,
    WideGrid,
}

fn search_by(
    alloc: Global,
    sys: &System,
    way: Way,
    budget: &mut Budget,
) -> Result<Sought<MeasureCert>, NoMemory> {
    match way {
        Way::Grid => Ok(of_grid(search_grid(alloc, sys, budget)?)),
        Way::Precedences => Ok(of_precedences(search_precedences(alloc, sys, budget)?)),
        Way::WideGrid => Ok(of_grid(search_wide_grid(alloc, sys, budget)?)),
    }
}

/// Looks for a measure by each way, the first with a third of the units, the second with half of what is left. Where none is
/// found and some way was cut short, all counts as spent.
pub(crate) fn search_measures(
    alloc: Global,
    sys: &System,
    budget: &mut Budget,
) -> Result<Sought<MeasureCert>, NoMemory> {
    let mut is_cut = false;
    for (way, parts) in [(Way::Grid, 3), (Way::Precedences, 2), (Way::WideGrid, 1)] {
        let mut share = part_of(budget, parts);
        let found = search_by(alloc, sys, way, &mut share)?;
        settle(budget, &share);
        match found {
            Sought::Found(measure) => return Ok(Sought::Found(measure)),
            Sought::Nothing => {}
            Sought::Spent => is_cut = true,
        }
    }
    Ok(if is_cut {
        Sought::Spent
    } else {
        Sought::Nothing
    })
}
