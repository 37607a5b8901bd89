// The tokens of formulas' texts, read one at a time.
ghost use Rattle.std.specs.Prelude.{◌≡◌, ◌≤◌, ◌∷◌, [], Some, MatchOption, IfSome, length, take, drop};
ghost use Rattle.std.specs.Option.{option_map, option_and_then};
ghost use Rattle.std.specs.List.{find};
ghost use Rattle.cell_addr.specs.Quoted.{quoted};
ghost use Rattle.cell_value.specs.Fault.{faults};
ghost use Rattle.formula_tree.specs.Tokens.{decimals_length, number_length, begins_number, text_token, sheet_token, begins_with_fault, fault_token, byte_token, pair_op};
ghost use Rattle.cell_addr.specs.declared.place.TheConstants.{ROWS};
ghost use Rattle.formula_tree.specs.Grammar.{end_of};
ghost use Rattle.formula_tree.specs.Reader.{after, corner_front, end_front};
ghost use Rattle.formula_parse.specs.internal.Front.{IsAddressInside, IsEndInside, HasAddressInside, token_of, symbol_token, mark_token, front_of, symbol_of, number_front};
ghost use Rattle.formula_parse.specs.internal.Stream.{stream, symbol_front};

use crate::front::{
    after_blanks, after_byte, begins_with, begins_with_digit, begins_with_run, digits_count,
    first_bytes, split_front, split_run,
};
use crate::run::{end_of_run, ends_sheet_name, run_token};
use crate::token::{Mark, Symbol, Token};
use cell_addr::after_quoted;
use cell_value::FaultKind;
use formula_tree::{Address, End, Op};

// The first token of the text, and what follows it; none where the text is blank.
pub(crate) fn first_token(text: &str) -> Option<(Token<'_>, &str)>
    ensures token { MatchOption result (stream text.now ≡ []) (λ p. stream text.now ≡ token_of p.0 ∷ stream p.1.now) }
    ensures inside { IfSome result (λ p. HasAddressInside (token_of p.0)) }
{
    let text = after_blanks(text);
    if text.is_empty() {
        return None;
    }
    match front(text) {
        Some((token, rest)) => Some((token, rest)),
        None => Some((Token::Stray, "")),
    }
}

// The symbol that is the first token of the text, and what follows it. The text is read no further than
// that, so this may be asked again where another token comes first.
pub(crate) fn first_symbol(text: &str) -> Option<(Symbol, &str)>
    ensures { option_map (λ p. (symbol_token p.0, stream p.1.now)) result ≡ symbol_front (stream text.now) }
{
    symbol(after_blanks(text))
}

// What follows the mark, where it is the first token of the text.
#[tactic(auto, using(crate::proofs::Symbols::after_by_symbol))]
pub(crate) fn after(mark: Mark, text: &str) -> Option<&str>
    ensures { option_map (λ rest. stream rest.now) result ≡ after (mark_token mark) (stream text.now) }
{
    let (symbol, rest) = first_symbol(text)?;
    if symbol.is(mark) { Some(rest) } else { None }
}

// The address that is the first token of the text, and what follows it.
#[tactic(auto, using(crate::proofs::Corners::corner_rules))]
pub(crate) fn first_corner(text: &str) -> Option<(Address, &str)>
    ensures front { option_map (λ p. (p.0, stream p.1.now)) result ≡ corner_front (stream text.now) }
    ensures inside { IfSome result (λ p. IsAddressInside p.0) }
{
    let (token, rest) = first_token(text)?;
    match token {
        Token::Corner(address) => Some((address, rest)),
        Token::Number(_) | Token::Text(_) | Token::Truth(_) | Token::Fault(_) => None,
        Token::Sheet(_) | Token::QuotedSheet(_) | Token::Name(_) | Token::Word(_) => None,
        Token::Symbol(_) | Token::Other(_) | Token::Stray => None,
    }
}

// The end of a whole range that is the first token of the text, and what follows it.
pub(crate) fn first_end(text: &str) -> Option<(End, &str)>
    ensures front { option_map (λ p. (p.0, stream p.1.now)) result ≡ end_front (stream text.now) }
    ensures inside { IfSome result (λ p. IsEndInside p.0) }
{
    let (token, rest) = first_token(text)?;
    let end = end_of(token)?;
    Some((end, rest))
}

// The end of a whole range that the token is.
#[tactic(auto, using(crate::proofs::Corners::end_rules))]
fn end_of(token: Token<'_>) -> Option<End>
    ensures end { result ≡ end_of ROWS (token_of token.entry) }
    ensures inside { IfSome result IsEndInside }
{
    match token {
        Token::Number(run) | Token::Name(run) | Token::Other(run) => end_of_run(run.as_bytes()),
        Token::Text(_) | Token::Truth(_) | Token::Fault(_) | Token::Corner(_) => None,
        Token::Sheet(_) | Token::QuotedSheet(_) | Token::Word(_) => None,
        Token::Symbol(_) | Token::Stray => None,
    }
}

// The token that the text begins with, and what follows it. `None` where it begins with no token: with
// a byte that begins none, a quote that isn't closed, or a name between apostrophes without its `!`.
pub(crate) fn front(text: &str) -> Option<(Token<'_>, &str)>
    ensures { option_map (λ p. (token_of p.0, p.1.now)) result ≡ front_of text.now }
{
    let bytes = text.as_bytes();
    if begins_with_run(bytes) {
        let (run, rest) = split_run(text);
        Some(run_token(run, rest))
    } else if begins_number(bytes) {
        Some(number_token(text))
    } else if begins_with(bytes, b'"') {
        text_token(after_byte(text))
    } else if begins_with(bytes, b'\'') {
        sheet_token(after_byte(text))
    } else if begins_with(bytes, b'#') {
        fault_token(text)
    } else {
        let (symbol, rest) = symbol(text)?;
        Some((Token::Symbol(symbol), rest))
    }
}

// Whether the text begins with a number: a digit, or a point and a digit.
pub(crate) fn begins_number(text: &[u8]) -> bool
    ensures { result ≡ begins_number text.now }
{
    match text {
        [b'.', rest @ ..] => begins_with_digit(rest),
        _ => begins_with_digit(text),
    }
}

// The number that the text begins with, as written.
pub(crate) fn number_token(text: &str) -> (Token<'_>, &str)
    ensures { Some (token_of result.0, result.1.now) ≡ number_front text.now }
{
    let (number, rest) = split_front(text, number_length(text.as_bytes()));
    (Token::Number(number), rest)
}

// How many bytes the number that the text begins with has.
fn number_length(text: &[u8]) -> usize
    ensures count { result ≡ number_length text.now }
    ensures within { result ≤ length text.now }
{
    let (_, rest) = text.split_at(digits_count(text));
    digits_count(text) + decimals_length(rest)
}

// How many bytes the point and the digits after it have.
fn decimals_length(text: &[u8]) -> usize
    ensures count { result ≡ decimals_length text.now }
    ensures within { result ≤ length text.now }
{
    match text {
        [b'.', rest @ ..] => 1 + digits_count(rest),
        _ => 0,
    }
}

// The text between double quotes, of what follows the first of them.
fn text_token(text: &str) -> Option<(Token<'_>, &str)>
    ensures { option_map (λ p. (token_of p.0, p.1.now)) result ≡ option_map text_token (quoted 34 text.now) }
{
    let rest = after_quoted(text, '"')?;
    Some((Token::Text(text), rest))
}

// The sheet's name between apostrophes, of what follows the first of them, and what follows the `!`
// after it.
fn sheet_token(text: &str) -> Option<(Token<'_>, &str)>
    ensures { option_map (λ p. (token_of p.0, p.1.now)) result ≡ option_and_then sheet_token (quoted 39 text.now) }
{
    let rest = after_quoted(text, '\'')?;
    if ends_sheet_name(rest.as_bytes()) {
        Some((Token::QuotedSheet(text), after_byte(rest)))
    } else {
        None
    }
}

// The fault that the text begins with, in letters of any case.
pub(crate) fn fault_token(text: &str) -> Option<(Token<'_>, &str)>
    ensures { option_map (λ p. (token_of p.0, p.1.now)) result ≡ option_map (fault_token text.now) (find (begins_with_fault text.now) faults) }
{
    let fault = fault_in_front(text.as_bytes())?;
    let (_, rest) = split_front(text, fault.text().len());
    Some((Token::Fault(fault), rest))
}

// The fault whose spelling stands in front.
fn fault_in_front(text: &[u8]) -> Option<FaultKind>
    ensures { result ≡ find (begins_with_fault text.now) faults }
{
    FaultKind::ALL
        .iter()
        .copied()
        .find(|fault| begins_with_fault(text, *fault))
}

// Whether the text begins with the spelling of this fault, in letters of any case.
fn begins_with_fault(text: &[u8], fault: FaultKind) -> bool
    ensures { result ≡ begins_with_fault text.now fault }
{
    let spelling = fault.text().as_bytes();
    first_bytes(text, spelling.len()).eq_ignore_ascii_case(spelling)
}

// The symbol that the text begins with; the longest operator is taken.
pub(crate) fn symbol(text: &str) -> Option<(Symbol, &str)>
    ensures { option_map (λ p. (symbol_token p.0, p.1.now)) result ≡ symbol_of text.now }
{
    match text.as_bytes() {
        [first, rest @ ..] => match pair_op(*first, rest) {
            Some(op) => Some((Symbol::Operator(op), split_front(text, 2).1)),
            None => match byte_symbol(*first) {
                Some(symbol) => Some((symbol, after_byte(text))),
                None => None,
            },
        },
        [] => None,
    }
}

// The operator that the byte and the one after it are, where they are one.
fn pair_op(first: u8, rest: &[u8]) -> Option<Op>
    ensures { result ≡ pair_op first rest.now }
{
    if first == b'<' && begins_with(rest, b'>') {
        Some(Op::Unequal)
    } else if first == b'<' && begins_with(rest, b'=') {
        Some(Op::AtMost)
    } else if first == b'>' && begins_with(rest, b'=') {
        Some(Op::AtLeast)
    } else {
        None
    }
}

// The symbol that a byte is by itself, where it is one.
fn byte_symbol(first: u8) -> Option<Symbol>
    ensures { option_map symbol_token result ≡ byte_token first }
{
    match first {
        b'=' => Some(Symbol::Operator(Op::Equal)),
        b'<' => Some(Symbol::Operator(Op::Less)),
        b'>' => Some(Symbol::Operator(Op::Greater)),
        b'&' => Some(Symbol::Operator(Op::Join)),
        b'+' => Some(Symbol::Operator(Op::Add)),
        b'-' => Some(Symbol::Operator(Op::Sub)),
        b'*' => Some(Symbol::Operator(Op::Mul)),
        b'/' => Some(Symbol::Operator(Op::Div)),
        b'^' => Some(Symbol::Operator(Op::Power)),
        b'%' => Some(Symbol::Percent),
        b':' => Some(Symbol::Mark(Mark::Colon)),
        b',' => Some(Symbol::Mark(Mark::Comma)),
        b'(' => Some(Symbol::Mark(Mark::Open)),
        b')' => Some(Symbol::Mark(Mark::Close)),
        _ => None,
    }
}
