// Texts between quotes: the content of a formula's text, or a sheet's name between apostrophes.
ghost use Rattle.std.specs.Prelude.{◌≡◌, ◌<◌, IfOk};
ghost use Rattle.std.specs.Option.{option_map, option_copied};
ghost use Rattle.cell_addr.specs.Quoted.{quoted};

use crate::parts::{split_once, strip_prefix};
use crate::text::Text;
use std::alloc::{AllocError, Global};

/// Of a text after an opening quote: what follows the closing one. Two quotes are one of the content, and
/// close nothing. `None` where no quote closes the content. The quote is an ASCII character.
pub fn after_quoted(text: &str, quote: char) -> Option<&str>
    requires { quote < 128 }
    ensures { option_copied result ≡ option_map (λ p. p.1) (quoted quote text.now) }
{
    let mut rest = text;
    'pieces: while let Some((_, after)) = split_once(rest, quote) {
        match strip_prefix(after, quote) {
            Some(more) => rest = more,
            None => return Some(after),
        }
    }
    None
}

/// Of a text after an opening quote: the content up to the closing one, where two quotes are one of the
/// content. `None` where no quote closes the content. The quote is an ASCII character.
pub fn quoted_text(alloc: Global, text: &str, quote: char) -> Result<Option<Text>, AllocError>
    requires { quote < 128 }
    ensures { IfOk result (λ content. content ≡ option_map (λ p. p.0) (quoted quote text.now)) }
{
    let mut content = String::new(alloc);
    let mut rest = text;
    'pieces: while let Some((piece, after)) = split_once(rest, quote) {
        content.push_str(piece)?;
        match strip_prefix(after, quote) {
            Some(more) => {
                content.push(quote)?;
                rest = more;
            }
            None => return Ok(Some(Text::new(content))),
        }
    }
    Ok(None)
}
