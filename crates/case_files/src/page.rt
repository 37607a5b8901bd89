// Rows of the tables of a page of Markdown.
ghost use Rattle.std.specs.Prelude.{◌≡◌, option_map, option_copied};
ghost use Rattle.case_files.specs.Cells.{after_front, around, cells};

/// What stands between the backticks of a row's first cell, and what stands in its second cell; `None` where the line
/// is no such row.
pub fn cells_of(line: &str) -> Option<(&str, &str)>
    ensures { option_map (λ p. (p.0.now, p.1.now)) result ≡ cells line.now }
{
    let rest = after_front(line, "| `")?;
    let (head, rest) = around(rest, "` | ")?;
    let (text, _) = around(rest, " |")?;
    Some((head, text))
}

// What follows the words at the front of a text.
fn after_front<'a>(text: &'a str, words: &str) -> Option<&'a str>
    ensures { option_copied result ≡ after_front words.now text.now }
{
    text.strip_prefix(words)
}

// What precedes and what follows the words where they first stand in a text.
fn around<'a>(text: &'a str, words: &str) -> Option<(&'a str, &'a str)>
    ensures { option_map (λ p. (p.0.now, p.1.now)) result ≡ around words.now text.now }
{
    text.split_once(words)
}
