//! Whether what a wavefront term claims at the leaves of its edge is shown.
#![tactic(auto, using(claims::proofs::Found::in_a_row))]

ghost use Rattle.std.specs.Prelude.{◌≡◌, ◌≤◌, ◌*◌, ◌++◌, ◌∷◌, [], ◌↔◌, length, option_map, IfOk, IsTrue};
ghost use Rattle.std.specs.List.{AllByRecursion};
ghost use Rattle.affine_form.specs.Rows.{equality_rows, put_in, IsSmallOver};
ghost use Rattle.affine_form.specs.System.{AllOver};
ghost use Rattle.claims.specs.Claims.{Decides};
ghost use Rattle.claims.specs.Shown.{IsFew};
ghost use Rattle.reuse_paths.specs.LeafClaims.{arrives, claim_of};
ghost use Rattle.dep_quast.specs.OpenLeaves.{origin_of};
ghost use Rattle.reuse_paths.specs.Walks.{spot_of};
ghost use Rattle.wavefront.specs.EdgeViews.{EntryFits, EqualFits};
ghost use Rattle.wavefront.specs.FrontClaims.{edge_claim, AllFollow, IsInputWord, IsSourceWord};
ghost use Rattle.iolb_model.specs.declared.limits.TheConstants.{VARIABLES};

use affine_form::{Form, Memory, Multipliers, System, difference, entails, put, system_of};
use claims::lists::followed_by;
use claims::shown::system_shown;
use claims::{Place, Refused, refusal};
use dep_quast::open_leaves::{OpenLeaf, Origin};
use iolb_model::limits;
use reuse_paths::{Leaf, Spot};
use std::alloc::Global;

/// Whether the goals follow, each by its multipliers.
fn all_follow(system: &System, goals: &[Form], shown: &[Multipliers]) -> bool
    requires { length shown.now ≡ length goals.now }
    ensures { IsTrue result ↔ AllFollow system.now goals.now shown.now }
{
    for (i, goal) in goals.iter().enumerate() {
        let _scale = shown[i].c();
        if !entails(system, goal, &shown[i]) {
            return false;
        }
    }
    true
}

/// The rows which say that forms with a point's forms put in are equal to others, pair by pair.
fn equal_rows(
    alloc: Global,
    vars: usize,
    forms: &[Form],
    point: &[Form],
    others: &[Form],
) -> Result<Vec<Form>, Memory>
    requires few { vars ≤ VARIABLES }
    requires few_forms { length point.now ≤ VARIABLES }
    requires one_each { length forms.now ≡ length others.now }
    requires over { AllByRecursion (IsSmallOver (length point.now)) forms.now }
    requires point_over { AllByRecursion (IsSmallOver vars) point.now }
    requires others_over { AllByRecursion (IsSmallOver vars) others.now }
    ensures rows { IfOk result (λ rows. rows.items ≡ equality_rows vars (put_in point.now forms.now) others.now) }
    ensures many { IfOk result (λ rows. length rows.items ≡ 2 * length others.now) }
{
    let mut rows = Vec::new(alloc);
    for (i, form) in forms.iter().enumerate() {
        let f = put(alloc, vars, form, point)?;
        let g = &others[i];
        rows.push(difference(alloc, vars, &f, g, 0)?)?;
        rows.push(difference(alloc, vars, g, &f, 0)?)?;
    }
    Ok(rows)
}

/// Whether a leaf's word is the instance that a term says: one of its statement, which the multipliers show to be it.
fn is_source(
    alloc: Global,
    system: &System,
    point: &[Form],
    source: &Option<Spot>,
    origin: &Origin,
    equal: &[Multipliers],
) -> Result<bool, Memory>
    requires few { system.now.vars ≤ VARIABLES }
    requires few_forms { length point.now ≤ VARIABLES }
    requires point_over { AllByRecursion (IsSmallOver system.now.vars) point.now }
    requires fits { EqualFits system.now.vars (length point.now) (option_map spot_of source.now) (origin_of origin.now) (length equal.now) }
    ensures { IfOk result (λ yes. IsTrue yes ↔ IsSourceWord system.now point.now (option_map spot_of source.now) (origin_of origin.now) equal.now) }
{
    let Some(spot) = source else {
        return Ok(false);
    };
    let Origin::Written {
        statement,
        point: values,
    } = origin
    else {
        return Ok(false);
    };
    if *statement != spot.statement {
        return Ok(false);
    }
    let (values, others) = (values.as_slice(), spot.point.as_slice());
    let goals = equal_rows(alloc, system.vars(), values, point, others)?;
    Ok(all_follow(system, goals.as_slice(), equal))
}

/// Whether the word at a leaf is shown to be the instance that a term says, in a system with these rows: else the condition
/// that doesn't hold, at this place.
fn source_shown(
    alloc: Global,
    vars: usize,
    rows: &[Form],
    point: &[Form],
    source: &Option<Spot>,
    place: &Place,
    origin: &Origin,
    equal: &[Multipliers],
) -> Result<(), Refused>
    requires few { vars ≤ VARIABLES }
    requires few_forms { length point.now ≤ VARIABLES }
    requires rows_over { AllOver vars rows.now }
    requires point_over { AllByRecursion (IsSmallOver vars) point.now }
    requires fits { EqualFits vars (length point.now) (option_map spot_of source.now) (origin_of origin.now) (length equal.now) }
    ensures { Decides (record { condition = 2; place = place.now; statement = IsFew (length rows.now) }
        ∷ edge_claim place.now (record { vars = vars; rows = rows.now }) point.now (option_map spot_of source.now) (origin_of origin.now) (arrives equal.now) ∷ []) result }
{
    if rows.len() > limits::ROWS {
        return Err(refusal(alloc, 2, place));
    }
    let system = system_of(alloc, vars, rows)?;
    if !is_source(alloc, &system, point, source, origin, equal)? {
        return Err(refusal(alloc, 19, place));
    }
    Ok(())
}

/// Whether the word at a leaf is an input, as a term without a source says.
fn is_input_word(source: &Option<Spot>, leaf: &OpenLeaf) -> bool
    ensures { IsTrue result ↔ IsInputWord (option_map spot_of source.now) leaf.now.origin }
{
    match source {
        None => leaf.is_input(),
        Some(_) => false,
    }
}

/// Whether what an entry claims at a leaf of the edge is shown, in the system of the nest's rows and the leaf's tests: else the
/// condition that doesn't hold, at this place.
pub(crate) fn edge_shown(
    alloc: Global,
    vars: usize,
    rows: &[Form],
    point: &[Form],
    source: &Option<Spot>,
    place: &Place,
    leaf: &OpenLeaf,
    entry: &Leaf,
) -> Result<(), Refused>
    requires few { vars ≤ VARIABLES }
    requires few_forms { length point.now ≤ VARIABLES }
    requires rows_over { AllOver vars rows.now }
    requires point_over { AllByRecursion (IsSmallOver vars) point.now }
    requires leaf_over { AllOver vars leaf.now.tests }
    requires fits { EntryFits vars (length point.now) (option_map spot_of source.now) leaf.now.origin (claim_of entry.now) }
    ensures { Decides (record { condition = 2; place = place.now; statement = IsFew (length (rows.now ++ leaf.now.tests)) }
        ∷ edge_claim place.now (record { vars = vars; rows = rows.now ++ leaf.now.tests }) point.now (option_map spot_of source.now) leaf.now.origin (claim_of entry.now) ∷ []) result }
{
    let front = followed_by(alloc, Vec::new(alloc), rows)?;
    let all = followed_by(alloc, front, leaf.tests.as_slice())?;
    let (all, origin) = (all.as_slice(), &leaf.origin);
    match entry {
        Leaf::Empty(shown) => system_shown(alloc, 19, place, vars, all, shown),
        Leaf::Arrive { equal } => source_shown(
            alloc,
            vars,
            all,
            point,
            source,
            place,
            origin,
            equal.as_slice(),
        ),
        _ if all.len() > limits::ROWS => Err(refusal(alloc, 2, place)),
        Leaf::Stop { .. } if is_input_word(source, leaf) => Ok(()),
        _ => Err(refusal(alloc, 19, place)),
    }
}
