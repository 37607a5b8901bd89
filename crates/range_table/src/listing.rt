// Values that are listed.
ghost use Rattle.std.specs.Prelude.{◌≡◌, ◌++◌, ◌∷◌, [], OnOk};
ghost use Rattle.range_table.specs.Cells.{nonempty, seen_values};

use cell_value::Scalar;
use std::alloc::AllocError;

/// Adds the value to the list, unless it is empty. Errs for want of memory.
pub fn add_nonempty<'a>(value: &'a Scalar, list: &mut Vec<&'a Scalar>) -> Result<(), AllocError>
    ensures { OnOk result (seen_values list.new.items ≡ seen_values list.old.items ++ nonempty (value.now ∷ [])) }
{
    if !value.is_empty() {
        list.push(value)?;
    }
    Ok(())
}
