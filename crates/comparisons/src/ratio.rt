//! Loads over a bound.

ghost use Rattle.std.specs.Prelude.{◌≡◌, ◌≢◌, ◌*◌, ◌/◌, ◌++◌, OnOk};
ghost use Rattle.comparisons.specs.Tables.{decimals, ratio_text};

use plain_pages::Page;
use std::alloc::AllocError;

/// The loads over a bound in hundredths, rounded down.
fn hundredths(loads: u64, bound: u128) -> u128
    requires { bound ≢ 0 }
    ensures { result ≡ loads * 100 / bound }
{
    u128::from(loads) * 100 / bound
}

/// Writes hundredths with two decimals.
fn write_decimals(page: &mut Page, ratio: u128) -> Result<(), AllocError>
    ensures { OnOk result (page.new ≡ page.old ++ decimals ratio) }
{
    let whole = ratio / 100;
    let tens = ratio % 100 / 10;
    let ones = ratio % 10;
    page.text(format!(in page.alloc(); "{whole}.{tens}{ones}")?.as_str())
}

/// Writes the loads over a bound with two decimals, rounded down, and another text where the bound is 0.
pub(crate) fn write_ratio(
    page: &mut Page,
    loads: u64,
    bound: u128,
    otherwise: &str,
) -> Result<(), AllocError>
    ensures { OnOk result (page.new ≡ page.old ++ ratio_text loads bound otherwise.now) }
{
    if bound == 0 {
        return page.text(otherwise);
    }
    write_decimals(page, hundredths(loads, bound))
}
