// The functions that ask where a reference is.
ghost use Rattle.std.specs.Prelude.{◌≡◌};
ghost use Rattle.calc_terms.specs.Places.{count_in, place_count, place_value};

use crate::function::PlaceFn;
use cell_addr::{Block, Place};
use cell_value::{FaultKind, Scalar};
use func_args::{counted, number_value};

/// The value of the function in a formula whose home is at this place, of the block that each argument stands
/// for, or of the fault in its place.
#[tactic(auto, unfolding(crate::specs::Places::place_value))]
pub fn place_value(f: PlaceFn, home: Place, blocks: &[Result<Block, FaultKind>]) -> Scalar
    ensures { result ≡ place_value f home blocks.now }
{
    match place_count(f, home, blocks) {
        Ok(count) => number_value(counted(count)),
        Err(fault) => Scalar::Fault(fault),
    }
}

// What the function counts.
fn place_count(
    f: PlaceFn,
    home: Place,
    blocks: &[Result<Block, FaultKind>],
) -> Result<u64, FaultKind>
    ensures { result ≡ place_count f home blocks.now }
{
    match (f, blocks) {
        (PlaceFn::Row, []) => Ok(u64::from(home.row) + 1),
        (PlaceFn::Column, []) => Ok(u64::from(home.col) + 1),
        (_, [Ok(block)]) => Ok(count_in(f, *block)),
        (_, [Err(fault)]) => Err(*fault),
        _ => Err(FaultKind::Na),
    }
}

// What the function counts in a block.
fn count_in(f: PlaceFn, block: Block) -> u64
    ensures { result ≡ count_in f block }
{
    match f {
        PlaceFn::Row => u64::from(block.top) + 1,
        PlaceFn::Column => u64::from(block.left) + 1,
        PlaceFn::Rows => block.height(),
        PlaceFn::Columns => block.width(),
    }
}
