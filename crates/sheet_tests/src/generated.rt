// The smallest list, and how long others are.
use generator::{MAX_SIZE, generate};
use script_lang::Command;
use std::alloc::{AllocError, Global};
use std::test::Fail;

// Sizes, and how many commands the lists have.
const SIZES: [(u32, usize); 4] = [(1, 4), (99, 200), (100, 208), (250, 514)];

// Whether the list of this size has so many commands.
fn has_count(alloc: Global, size: u32, count: usize) -> Result<bool, AllocError> {
    if size == 0 || size > MAX_SIZE {
        return Ok(false);
    }
    Ok(generate(alloc, size)?.len() == count)
}

// Whether the second command sets B1 to the sum of the first row.
fn second_sums_up(commands: &[Command]) -> bool {
    match commands.get(1) {
        Some(Command::Set(at, text)) => at.left == 1 && text.as_str() == "=SUM($A$1:A1)",
        _ => false,
    }
}

// Whether the command after all cells puts a row in before the fourteenth.
fn row_is_put_in(commands: &[Command]) -> bool {
    matches!(commands.get(200), Some(Command::InsertRows(_, 13, 1)))
}

#[test]
fn generates_commands(rt: HostRuntime) -> Result<(), Fail> {
    for (size, count) in SIZES {
        assert!(rt; has_count(rt.alloc(), size, count)?, "size {size}");
    }
    let commands = generate(rt.alloc(), 100)?;
    assert!(rt; second_sums_up(&commands) && row_is_put_in(&commands));
    Ok(())
}
