//! Cases of walks over a flat term: cell by cell up to the end, and from a place to behind its subterm.
use crate::samples::{go_to, nested, nested_cells};
use flatterm::Flat;
use std::test::Fail;
use term_core::{equal, fits};

#[test]
fn next_meets_each_cell_and_stays_at_the_end(rt: HostRuntime) -> Result<(), Fail> {
    let alloc = rt.alloc();
    let t = nested(alloc)?;
    assert!(rt; fits(&t));
    let mut flat = Flat::from_term(alloc, &t)?;
    for round in 0..2 {
        for want in nested_cells() {
            assert_eq!(rt; flat.cell(), Some(want), "in round {round}");
            assert!(rt; equal(&flat.to_term(alloc)?, &t));
            assert!(rt; flat.next());
        }
        assert!(rt; flat.cell().is_none());
        assert!(rt; !flat.next() && !flat.skip() && !flat.next());
        assert!(rt; flat.cell().is_none());
        assert!(rt; equal(&flat.to_term(alloc)?, &t));
        flat.rewind();
    }
    Ok(())
}

#[test]
fn skip_goes_behind_the_subterm(rt: HostRuntime) -> Result<(), Fail> {
    let alloc = rt.alloc();
    let t = nested(alloc)?;
    assert!(rt; fits(&t));
    let mut flat = Flat::from_term(alloc, &t)?;
    let cells = nested_cells();
    for (place, behind) in [(0, 7), (1, 2), (2, 6), (3, 5), (4, 5), (5, 6), (6, 7)] {
        go_to(&mut flat, place);
        assert!(rt; flat.skip());
        assert_eq!(rt; flat.cell(), cells.get(behind).copied(), "from {place}");
    }
    assert!(rt; !flat.skip() && !flat.next());
    Ok(())
}
