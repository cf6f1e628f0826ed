//! Matrices with their scales.

ghost use Rattle.std.specs.Prelude.{◌≤◌, ℕ};
ghost use Rattle.affine_form.specs.Matrix.{IntegerMatrix};
ghost use Rattle.iolb_model.specs.declared.limits.TheConstants.{SCALE};
ghost use Rattle.json_parts.specs.Related.{plain_link};
ghost use Rattle.certificate_parts.specs.Inverses.{inverse_shape};

use crate::matrices::OfMatrix;
use affine_form::Memory;
use json_parts::{CertError, End, Number32, Part, put_part, read_object, write_object};
use json_values::Json;
use serde_json::Value;
use std::alloc::Global;
use wavefront::Inverse;

/// A matrix, and its scale from 1 to 2^20.
pub struct OfInverse {}

type Scale = Number32<1, 1048576>;

impl Part for OfInverse {
    type Value = Inverse;

    ghost Said = { IntegerMatrix × ℕ };

    ghost shape = { inverse_shape };

    ghost link = { plain_link (λ inverse. (inverse.matrix, inverse.scale)) };

    ghost Fits = { λ inverse. (1 ≤ inverse.scale) × (inverse.scale ≤ SCALE) };

    #[tactic(auto, unfolding(crate::specs::Inverses::inverse_shape))]
    fn read(alloc: Global, value: &Json) -> Result<Inverse, CertError> {
        let (matrix, (scale, ())) = read_object::<(OfMatrix, (Scale, End))>(
            alloc,
            value,
            &["matrix", "scale"],
        )?;
        Ok(Inverse { matrix, scale })
    }

    #[tactic(auto, using(json_parts::proofs::Back::made_read), unfolding(crate::specs::Inverses::inverse_shape))]
    fn write(alloc: Global, part: &Inverse) -> Result<Value, Memory> {
        let rest = put_part::<Scale, _>(&part.scale, End {});
        let all = put_part::<OfMatrix, _>(&part.matrix, rest);
        let value = write_object(alloc, &["matrix", "scale"], &all)?;
        Ok(value)
    }
}
