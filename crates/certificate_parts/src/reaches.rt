//! Regions, spots, and what shows that walks arrive.

ghost use Rattle.certificate_fit.specs.Limits.{AreSmall, IsSmallRegion, IsSmallReach};
ghost use Rattle.reuse_paths.specs.Walks.{WalkRegion, SpotForms, ReachClaim, region_of, spot_of, reach_of};
ghost use Rattle.json_parts.specs.Related.{plain_link};
ghost use Rattle.certificate_parts.specs.Reaches.{region_shape, spot_shape, reach_shape};

use crate::forms::OfForm;
use crate::multipliers::OfMultipliers;
use crate::walks::OfWalk;
use affine_form::Memory;
use json_parts::{
    Any16, Boxed, CertError, End, Few, ListOf, OrNull, Part, has_keys, put_part, read_object,
    write_object,
};
use json_values::Json;
use reuse_paths::{Reach, Region, Spot};
use serde_json::Value;
use std::alloc::Global;

/// A region: at most 16 rows, and a walk.
pub struct OfRegion {}

type Rows = Few<OfForm, 16>;

impl Part for OfRegion {
    type Value = Region;

    ghost Said = { WalkRegion };

    ghost shape = { region_shape };

    ghost link = { plain_link region_of };

    ghost Fits = { λ region. IsSmallRegion (region_of region) };

    #[tactic(auto, unfolding(crate::specs::Reaches::region_shape))]
    fn read(alloc: Global, value: &Json) -> Result<Region, CertError> {
        let (rows, (tree, ())) = read_object::<(Rows, (OfWalk, End))>(
            alloc,
            value,
            &["rows", "tree"],
        )?;
        Ok(Region { rows, tree })
    }

    #[tactic(auto, unfolding(crate::specs::Reaches::region_shape))]
    fn write(alloc: Global, part: &Region) -> Result<Value, Memory> {
        let rest = put_part::<OfWalk, _>(&part.tree, End {});
        let all = put_part::<Rows, _>(&part.rows, rest);
        let value = write_object(alloc, &["rows", "tree"], &all)?;
        Ok(value)
    }
}

/// A spot: an instance for each point of a nest.
pub struct OfSpot {}

impl Part for OfSpot {
    type Value = Spot;

    ghost Said = { SpotForms };

    ghost shape = { spot_shape };

    ghost link = { plain_link spot_of };

    ghost Fits = { λ spot. AreSmall spot.point.items };

    #[tactic(auto, unfolding(crate::specs::Reaches::spot_shape))]
    fn read(alloc: Global, value: &Json) -> Result<Spot, CertError> {
        let names = ["point", "statement"];
        let (point, (statement, ())) = read_object::<(ListOf<OfForm>, (Any16, End))>(
            alloc, value, &names,
        )?;
        Ok(Spot { statement, point })
    }

    #[tactic(auto, unfolding(crate::specs::Reaches::spot_shape))]
    fn write(alloc: Global, part: &Spot) -> Result<Value, Memory> {
        let rest = put_part::<Any16, _>(&part.statement, End {});
        let all = put_part::<ListOf<OfForm>, _>(&part.point, rest);
        let value = write_object(alloc, &["point", "statement"], &all)?;
        Ok(value)
    }
}

/// What shows that a walk back from one spot arrives at another: that they are the same, or the regions of all
/// statements.
pub struct OfReach {}

type Shown = ListOf<OfMultipliers>;

type Nodes = ListOf<OrNull<Boxed<OfRegion>>>;

impl Part for OfReach {
    type Value = Reach;

    ghost Said = { ReachClaim };

    ghost shape = { reach_shape };

    ghost link = { plain_link reach_of };

    ghost Fits = { λ reach. IsSmallReach (reach_of reach) };

    #[tactic(auto, unfolding(crate::specs::Reaches::reads_reach))]
    fn read(alloc: Global, value: &Json) -> Result<Reach, CertError> {
        if has_keys(value, &["same"]) {
            let (equal, ()) = read_object::<(Shown, End)>(alloc, value, &["same"])?;
            return Ok(Reach::Same(equal));
        }
        let (nodes, (start, ())) = read_object::<(Nodes, (Shown, End))>(
            alloc,
            value,
            &["nodes", "start"],
        )?;
        Ok(Reach::Walked { start, nodes })
    }

    #[tactic(auto, unfolding(crate::specs::Reaches::reads_reach))]
    fn write(alloc: Global, part: &Reach) -> Result<Value, Memory> {
        match part {
            Reach::Same(equal) => {
                let all = put_part::<Shown, _>(equal, End {});
                let value = write_object(alloc, &["same"], &all)?;
                Ok(value)
            }
            Reach::Walked { start, nodes } => {
                let rest = put_part::<Shown, _>(start, End {});
                let all = put_part::<Nodes, _>(nodes, rest);
                let value = write_object(alloc, &["nodes", "start"], &all)?;
                Ok(value)
            }
        }
    }
}
