//! The limits, each by its number: a clause cites a limit by its name, so no clause breaks where a number changes.

use iolb_model::limits;
use joint_partition::limits as joint_limits;
use loop_graph::limits as graph_limits;
use std::test::Fail;
use store_terms::OUTPUTS;

#[test]
fn programs_have_their_limits(rt: HostRuntime) -> Result<(), Fail> {
    assert_eq!(rt; limits::LOOPS, 6);
    assert_eq!(rt; limits::GUARDS, 16);
    assert_eq!(rt; limits::PARAMETERS, 6);
    assert_eq!(rt; limits::STATEMENTS, 32);
    assert_eq!(rt; limits::ARRAYS, 128);
    assert_eq!(rt; limits::SUBSCRIPTS, 4);
    assert_eq!(rt; limits::READS, 32);
    assert_eq!(rt; limits::ASSUMPTIONS, 32);
    assert_eq!(rt; limits::BRACKETS, 64);
    assert_eq!(rt; limits::NAME_BYTES, 64);
    assert_eq!(rt; limits::PRODUCTS, 32);
    Ok(())
}

#[test]
fn numbers_have_their_limits(rt: HostRuntime) -> Result<(), Fail> {
    assert_eq!(rt; limits::NUMBER_SIZE, 1 << 20);
    assert_eq!(rt; limits::MULTIPLIER_SIZE, 1 << 48);
    assert_eq!(rt; limits::COEFFICIENT_SIZE, 1 << 62);
    assert_eq!(rt; limits::EXPONENT, 8);
    assert_eq!(rt; limits::MEASURE, 1 << 126);
    assert_eq!(rt; limits::VALUE_SIZE, 1 << 40);
    assert_eq!(rt; limits::ROWS, 128);
    assert_eq!(rt; limits::VARIABLES, 24);
    assert_eq!(rt; limits::NEST_VARIABLES, 6);
    Ok(())
}

#[test]
fn certificates_have_their_limits(rt: HostRuntime) -> Result<(), Fail> {
    assert_eq!(rt; limits::TREE_TESTS, 16);
    assert_eq!(rt; limits::TREE_LEAVES, 64);
    assert_eq!(rt; limits::REGION_ROWS, 16);
    assert_eq!(rt; limits::SCALE, 1 << 20);
    assert_eq!(rt; limits::TERMS, 32);
    assert_eq!(rt; limits::BRANCHES, 8);
    assert_eq!(rt; limits::FAMILIES, 6);
    assert_eq!(rt; limits::CREDITS, 4);
    assert_eq!(rt; limits::WEIGHT, 12);
    assert_eq!(rt; limits::WEIGHTS, 24);
    assert_eq!(rt; limits::STRETCH, 64);
    assert_eq!(rt; limits::STRETCH_MORE, 1 << 20);
    assert_eq!(rt; OUTPUTS, 16);
    Ok(())
}

#[test]
fn joint_terms_have_their_limits(rt: HostRuntime) -> Result<(), Fail> {
    assert_eq!(rt; joint_limits::PARTS, 4);
    assert_eq!(rt; joint_limits::LABELINGS, 4);
    assert_eq!(rt; joint_limits::WAYS, 8);
    assert_eq!(rt; joint_limits::GROUPS, 6);
    assert_eq!(rt; joint_limits::JOINT_WEIGHTS, 16);
    assert_eq!(rt; joint_limits::JOINT_CREDITS, 8);
    Ok(())
}

#[test]
fn files_and_plays_have_their_limits(rt: HostRuntime) -> Result<(), Fail> {
    assert_eq!(rt; limits::PROGRAM_BYTES, 4_194_304);
    assert_eq!(rt; limits::CERTIFICATE_BYTES, 67_108_864);
    assert_eq!(rt; limits::SCHEDULE_BYTES, 1_048_576);
    assert_eq!(rt; limits::MOVES_BYTES, 67_108_864);
    assert_eq!(rt; limits::SCHEDULE_KEYS, 8);
    assert_eq!(rt; limits::DIVISOR, 1 << 20);
    assert_eq!(rt; limits::PROCESSORS, 1_048_576);
    assert_eq!(rt; limits::LEVELS, 4);
    assert_eq!(rt; graph_limits::VERTICES, 2_097_152);
    assert_eq!(rt; graph_limits::TURNS, 16_777_216);
    Ok(())
}
