// Runs: numbers in a row that stand for others in a row.
ghost use Rattle.std.specs.Prelude.{◌≡◌, ◌++◌, ◌∷◌, [], true, MatchOption, IfSome, option_map, ◌+◌, ◌-◌, ◌≤◌, length};
ghost use Rattle.stable_lines.specs.Runs.{image};
ghost use Rattle.stable_lines.specs.internal.Tables.{IsFound, is_table, run_with};

/// Numbers in a row that stand for as many others in a row: `from + i` for `to + i` where `i < count`.
#[derive(Clone, Copy, PartialEq, Eq, Debug)]
pub struct Run {
    pub from: u64,
    pub to: u64,
    pub count: u64,
}

// The run of the table that has the number, by halving.
pub(crate) fn run_with(table: &[Run], number: u64) -> Option<Run>
    requires { is_table 0 table.now ≡ true }
    ensures run { result ≡ run_with table.now number }
    ensures found { IfSome result (λ r. IsFound r number) }
    ensures image { image table.now number ≡ option_map (λ r. r.to + (number - r.from)) result }
{
    let mut rest = table;
    while let Some((front, run, behind)) = halved(rest) {
        if number < run.from {
            rest = front;
        } else if number - run.from < run.count {
            return Some(run);
        } else {
            rest = behind;
        }
    }
    None
}

// The run in the middle, with those before and behind it; None where there are no runs.
fn halved(runs: &[Run]) -> Option<(&[Run], Run, &[Run])>
    ensures { MatchOption result (runs.now ≡ []) (λ parts. runs.now ≡ parts.0.now ++ (parts.1 ∷ parts.2.now)) }
{
    let (front, back) = runs.split_at(runs.len() / 2);
    match back {
        [run, behind @ ..] => Some((front, *run, behind)),
        [] => None,
    }
}

// The run that stands so far from the front, with those before and behind it; None where there are no more.
pub(crate) fn parted(runs: &[Run], at: usize) -> Option<(&[Run], Run, &[Run])>
    requires { at ≤ length runs.now }
    ensures parts { IfSome result (λ parts. runs.now ≡ parts.0.now ++ (parts.1 ∷ parts.2.now)) }
    ensures at { IfSome result (λ parts. length runs.now ≡ at + 1 + length parts.2.now) }
{
    let (front, back) = runs.split_at(at);
    match back {
        [run, behind @ ..] => Some((front, *run, behind)),
        [] => None,
    }
}

// Where the table takes the number.
pub(crate) fn image(table: &[Run], number: u64) -> Option<u64>
    requires { is_table 0 table.now ≡ true }
    ensures { result ≡ image table.now number }
{
    let run = run_with(table, number)?;
    Some(run.to + (number - run.from))
}
