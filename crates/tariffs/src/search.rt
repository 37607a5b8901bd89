// Tables searched by halves.
ghost use Rattle.std.specs.Prelude.{◌≡◌, ◌≤◌, ℕ, ℤ, int_le, length, true, false};
ghost use Rattle.std.specs.List.{AllWithin};
ghost use Rattle.custom_fn.specs.Pairs.{rises};

/// How many rows of a table that rises begin at or below a number.
pub fn begun(table: &[(i64, i64)], x: i64) -> usize
    requires { rises table.now ≡ true }
    ensures bound { result ≤ length table.now }
    ensures before { AllWithin (λ row. int_le row.0 x ≡ true) table.now 0 result }
    ensures behind { AllWithin (λ row. int_le row.0 x ≡ false) table.now result (length table.now) }
{
    table.partition_point(|row| row.0 <= x)
}
