//! The values of partition terms at sizes.

ghost use Rattle.std.specs.Prelude.{◌≡◌, ◌+◌, ◌-◌, ◌*◌, ◌/◌, ◌^◌, ◌<◌, ◌≤◌, ◌↔◌, ◌⊎◌, length, IfOk, IsErr};
ghost use Rattle.iolb_check.specs.Bounds.{AreWideEvents, AreWideLabels, IsStretching, IsWidePartition};
ghost use Rattle.k_partition.specs.Numbers.{numbers_of};
ghost use Rattle.iolb_model.specs.Bound.{AreMet, count_value, events_of, labels_of, points_of};
ghost use Rattle.iolb_model.specs.declared.limits.TheConstants.{MEASURE};
ghost use Rattle.poly_tree.specs.Printed.{polynomial_of};

use crate::evaluation::count_at;
use affine_form::System;
use iolb_model::limits;
use k_partition::PartitionBound;
use poly_tree::Wide;
use uniform_cover::greatest_u;

/// The value of a partition term's bound at sizes that meet the assumptions.
pub(crate) fn partition_at(
    bound: &PartitionBound,
    assumed: &System,
    point: &[i128],
    s: u64,
) -> Result<u128, Wide>
    requires stretching { IsStretching assumed.now bound.now }
    requires each { length point.now ≡ assumed.now.vars }
    requires met { AreMet assumed.now.rows point.now }
    requires some { 1 ≤ s }
    ensures value { IfOk result (λ value. value ≡ events_of (numbers_of bound.now) s * ((count_value (polynomial_of bound.now.count) point.now - 1) / points_of (numbers_of bound.now) s)
        - count_value (polynomial_of bound.now.credits) point.now) }
    ensures wide { IsErr result ↔ IsWidePartition point.now s bound.now }
{
    let points = count_at(&bound.count, assumed, point)?;
    let credited = count_at(&bound.credits, assumed, point)?;
    let events = events_at(bound, points, s)?;
    Ok(events.saturating_sub(credited))
}

/// The events of as many stretches as so many points fill, but for the last of them. They are `Wide` exactly where they reach
/// 2^126, or the labels of a stretch, to the power of the weights, 2^127.
pub fn events_at(bound: &PartitionBound, points: u128, s: u64) -> Result<u128, Wide>
    requires some_q { 1 ≤ bound.now.q }
    requires some_den { 1 ≤ bound.now.den }
    requires some { 1 ≤ s }
    ensures value { IfOk result (λ value. value ≡ events_of (numbers_of bound.now) s * ((points - 1) / points_of (numbers_of bound.now) s)) }
    ensures wide { IsErr result ↔ (AreWideLabels s (numbers_of bound.now) ⊎ (MEASURE ≤ events_of (numbers_of bound.now) s * ((points - 1) / points_of (numbers_of bound.now) s))) }
{
    let events = stretch_at(bound.a, bound.b, s);
    let most = points_at(bound, s, events)?;
    match events.checked_mul(points.saturating_sub(1) / most) {
        Some(total) if total < limits::MEASURE => Ok(total),
        _ => Err(Wide),
    }
}

/// The events of a stretch: a for each of s red pebbles, and b more.
fn stretch_at(a: u8, b: u32, s: u64) -> u128
    ensures events { result ≡ a * s + b }
    ensures few { result < 2 ^ 73 }
{
    u128::from(a) * u128::from(s) + u128::from(b)
}

/// How many points at most are computed in a stretch of so many events.
fn points_at(bound: &PartitionBound, s: u64, events: u128) -> Result<u128, Wide>
    requires some_q { 1 ≤ bound.now.q }
    requires some_den { 1 ≤ bound.now.den }
    requires some { 1 ≤ s }
    requires are { events ≡ events_of (numbers_of bound.now) s }
    requires few { events < 2 ^ 73 }
    ensures value { IfOk result (λ most. most ≡ points_of (numbers_of bound.now) s) }
    ensures some { IfOk result (λ most. 1 ≤ most) }
    ensures wide { IsErr result ↔ AreWideLabels s (numbers_of bound.now) }
{
    let labels = u128::from(s) + events;
    let q = u32::from(bound.q);
    let m = u32::from(bound.m);
    match greatest_u(q, bound.den, bound.num, labels, m) {
        Ok(most) => Ok(most),
        Err(_) => Err(Wide),
    }
}
