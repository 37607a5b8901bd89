// Where formulas' texts go wrong.
ghost use Rattle.std.specs.Prelude.{◌≡◌, ◌∷◌, None, IfSome};
ghost use Rattle.formula_parse.specs.Fronts.{IsFormula, GoesWrongBefore, GoesWrongAt};

use crate::frames::Frames;
use crate::front::after_blanks;
use crate::lexer::front;
use crate::progress::{Kind, Stage};
use cell_addr::strip_prefix;

/// A part of a text, in bytes.
#[derive(Clone, Copy, PartialEq, Eq, Debug)]
pub struct TextSpan {
    /// Where it begins.
    pub at: usize,
    /// How many bytes it has.
    pub length: usize,
}

/// The first token of the text at which no formula goes on; `None` where the text is a formula.
///
/// In `=1+*2` it is the `*`, at 3 and of 1 byte; in `=SUM(1,2` the end, at 8 and of none; in `=1+"abc` what
/// begins with the quote, at 3 and of 4.
///
/// A token is a number, a text between double quotes, a truth value, a fault, an address, a name or another
/// run of letters, digits, `_`, `.` and `$`, a function's word, a sheet's name with its `!`, an operator, `%`,
/// or one of `:`, `,`, `(` and `)`. Some formula begins with the tokens before the one that is told, and none
/// with those and it. A formula has at most 64 levels, so the token that would need a 65th is the place.
/// Which texts are formulas is the same for all homes and sheets, so none are asked for.
///
/// Where the text is only the beginning of formulas, its end is the place, with a length of 0. Where no token
/// begins, as at a stray byte or a quote that isn't closed, the rest of the text is. A text that doesn't
/// begin with `=` is wrong as a whole.
///
/// Takes no memory, and reads each byte a bounded number of times.
pub fn parse_error(text: &str) -> Option<TextSpan>
    ensures formula { result ≡ None → IsFormula text.now }
    ensures wrong { IfSome result (λ span. GoesWrongAt text.now span) }
{
    let Some(formula) = strip_prefix(text, '=') else {
        return Some(TextSpan {
            at: 0,
            length: text.len(),
        });
    };
    let (rest, behind) = wrong_token(formula)?;
    Some(TextSpan {
        at: text.len() - rest.len(),
        length: rest.len() - behind.len(),
    })
}

// What follows `=` from the first wrong token on, and what is behind that token; `None` where none is wrong.
fn wrong_token(formula: &str) -> Option<(&str, &str)>
    ensures formula { result ≡ None → IsFormula (61 ∷ formula.now) }
    ensures wrong { IfSome result (λ p. GoesWrongBefore formula.now p.0.now p.1.now) }
{
    let mut frames = Frames::new();
    let mut stage = Stage::Operand;
    let mut next = formula;
    'tokens: loop {
        let rest = after_blanks(next);
        if rest.is_empty() {
            return if frames.ends(stage) {
                None
            } else {
                Some((rest, rest))
            };
        }
        let Some((token, behind)) = front(rest) else {
            return Some((rest, ""));
        };
        let Some(more) = frames.advance(stage, Kind::of(token)) else {
            return Some((rest, behind));
        };
        stage = more;
        next = behind;
    }
}
