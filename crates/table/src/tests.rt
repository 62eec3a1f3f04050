//! A table of three rows, of which the last is not safe.
use crate::arc::Arc;
use crate::table::Table;
use process::{Process, Refusal};
use std::test::Fail;

#[test]
fn the_first_fitting_arc_leads(rt: HostRuntime) -> Result<(), Fail> {
    let safe = [true, true, false].to_vec(rt.alloc())?;
    let first = Arc {
        from: 0,
        choice: 4,
        to: 1,
    };
    let second = Arc {
        from: 0,
        choice: 4,
        to: 2,
    };
    let table = Table::new(safe, [first, second].to_vec(rt.alloc())?);
    let mut out = [9u16; 1];
    assert_eq!(rt; table.next(&[0], 3, &mut out), Err(Refusal::NotAllowed));
    assert_eq!(rt; table.next(&[2], 4, &mut out), Err(Refusal::NotAllowed));
    assert_eq!(rt; table.next(&[0], 4, &mut out), Ok(()));
    assert!(rt; out[0] == 1);
    Ok(())
}
