// The rules that the two functions answer.
ghost use Rattle.std.specs.Prelude.{◌≡◌, IfOk, All};
ghost use Rattle.fix_num.specs.Number.{IsInside};
ghost use Rattle.tariffs.specs.Tariffs.{levy, postage};

use crate::tables::{LEVY, POSTAGE};
use custom_fn::Rule;
use fix_num::Fixed;
use std::alloc::{AllocError, Global};

/// The bands of the postage.
pub fn postage_rule(alloc: Global) -> Result<Rule, AllocError>
    ensures { IfOk result (λ rule. rule ≡ postage) }
{
    match Rule::bands(pairs(alloc, &POSTAGE)?) {
        Some(rule) => Ok(rule),
        None => unreachable!(),
    }
}

/// The tiers of the levy.
pub fn levy_rule(alloc: Global) -> Result<Rule, AllocError>
    ensures { IfOk result (λ rule. rule ≡ levy) }
{
    match Rule::tiers(pairs(alloc, &LEVY)?) {
        Some(rule) => Ok(rule),
        None => unreachable!(),
    }
}

// The pairs of a table.
fn pairs(alloc: Global, table: &[(i64, i64)]) -> Result<Vec<(Fixed, Fixed)>, AllocError>
    requires { All (λ row. IsInside row.0 × IsInside row.1) table.now }
    ensures { IfOk result (λ list. list.items ≡ table.now) }
{
    let mut list = Vec::new(alloc);
    'rows: for row in table {
        list.push((number(row.0), number(row.1)))?;
    }
    Ok(list)
}

/// The number of so many millionths.
pub fn number(millionths: i64) -> Fixed
    requires { IsInside millionths }
    ensures { result ≡ millionths }
{
    match Fixed::from_millionths(millionths) {
        Ok(number) => number,
        Err(_) => unreachable!(),
    }
}
