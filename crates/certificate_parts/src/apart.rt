//! Exponent lists that stand apart.

ghost use Rattle.std.specs.Prelude.{◌≡◌, ◌∷◌, [], ◌++◌, Ok, true, IfOk};
ghost use Rattle.poly_tree.specs.Terms.{terms_of, AreApart};
ghost use Rattle.certificate_parts.specs.Polynomials.{HasLists, exponent_lists, stands_apart as do_stand_apart};

use affine_form::Memory;
use std::alloc::Global;
use std::collections::BTreeSet;

/// Whether exponents are as many as those of each earlier term, and others; then their list is put with the earlier
/// ones.
pub(crate) fn stands_apart(
    alloc: Global,
    earlier: &[(i128, Vec<u8>)],
    lists: &mut BTreeSet<Vec<u8>>,
    exponents: &[u8],
) -> Result<bool, Memory>
    requires apart { AreApart (terms_of earlier.now) }
    requires lists { HasLists lists.old (exponent_lists (terms_of earlier.now)) }
    ensures apart { IfOk result (λ apart. apart ≡ do_stand_apart (terms_of earlier.now) exponents.now) }
    ensures lists { result ≡ Ok true → HasLists lists.new (exponent_lists (terms_of earlier.now) ++ exponents.now ∷ []) }
{
    if let Some((_, others)) = earlier.first() {
        if others.len() != exponents.len() {
            return Ok(false);
        }
    }
    let list = Vec::from_slice(alloc, exponents)?;
    Ok(lists.insert(list)?)
}
