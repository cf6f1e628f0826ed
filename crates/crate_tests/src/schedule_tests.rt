//! Schedules whose texts are refused, and orders that are known.

use crate::texts::COPIED_ROW;
use affine_c::read_program;
use claims::{Place, Step};
use loop_graph::build;
use std::alloc::Global;
use std::test::Fail;
use tile_sched::{SchedError, SchedFault, order, read_schedule};

/// A row that is copied from behind its start on.
const SHIFTED_ROW: &[u8] =
    b"#pragma scop\nfor (i = -3; i < N; i++) A[i] = B[i];\n#pragma endscop\n";

/// The fault of a schedule's text for the copied row.
fn fault_of(alloc: Global, text: &[u8]) -> Result<Option<SchedFault>, Fail> {
    let program = read_program(alloc, COPIED_ROW)?;
    match read_schedule(alloc, text, &program) {
        Err(SchedError::Fault(fault)) => Ok(Some(fault)),
        _ => Ok(None),
    }
}

/// Whether a place is the first row of the keys' list, by these indices.
fn is_among_keys(place: &Place, indices: &[u64]) -> bool {
    let mut steps = place.steps().iter();
    match steps.next() {
        Some(Step::Key(key)) if key.0 == "keys" => {}
        _ => return false,
    }
    for wanted in indices {
        match steps.next() {
            Some(Step::Index(index)) if *index == *wanted => {}
            _ => return false,
        }
    }
    steps.next().is_none()
}

#[test]
fn schedules_are_refused(rt: HostRuntime) -> Result<(), Fail> {
    let cases: [(&[u8], u8, &[u64]); 5] = [
        (b"{\"keys\":[]}", 2, &[]),
        (b"{\"keys\":[[[[0,1],1]]]}", 2, &[0, 0, 0]),
        (b"{\"keys\":[[[[0,1,0],0]]]}", 3, &[0, 0, 1]),
        (b"{\"keys\":[[[[0,1048576,0],1]]]}", 3, &[0, 0, 0, 1]),
        (b"{\"keys\":[[0,0,0,0,0,0,0,0,0]]}", 3, &[0]),
    ];
    for (text, number, indices) in cases.iter() {
        let Some(fault) = fault_of(rt.alloc(), text)? else {
            assert!(rt; false);
            return Ok(());
        };
        assert_eq!(rt; fault.number, *number);
        assert!(rt; is_among_keys(&fault.place, *indices));
    }
    Ok(())
}

#[test]
fn whole_schedules_are_refused(rt: HostRuntime) -> Result<(), Fail> {
    let cases: [(&[u8], u8); 2] = [(b"", 1), (b"[]", 2)];
    for (text, number) in cases.iter() {
        let Some(fault) = fault_of(rt.alloc(), text)? else {
            assert!(rt; false);
            return Ok(());
        };
        assert_eq!(rt; fault.number, *number);
        assert!(rt; fault.place.steps().is_empty());
    }
    Ok(())
}

#[test]
fn quotients_round_down(rt: HostRuntime) -> Result<(), Fail> {
    let alloc = rt.alloc();
    let program = read_program(alloc, SHIFTED_ROW)?;
    if program.params().len() != 1 {
        assert!(rt; false);
        return Ok(());
    }
    let graph = build(alloc, &program, &[3])?;
    let schedule = read_schedule(alloc, b"{\"keys\":[[[[0,-1,0],2]]]}", &program)?;
    let order = order(alloc, &program, &[3], &graph, &schedule)?;
    assert!(rt; order.as_slice() == [4, 5, 2, 3, 0, 1].as_slice());
    Ok(())
}
