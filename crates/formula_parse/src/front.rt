// Fronts of formulas' texts: the bytes that a text begins with, and where it is cut after them.
ghost use Rattle.std.specs.Prelude.{◌≡◌, ◌≤◌, true, length, take, drop};
ghost use Rattle.std.specs.List.{prefix_len, take_while};
ghost use Rattle.std.specs.Char.{is_ascii};
ghost use Rattle.digits.specs.Digits.{is_digit};
ghost use Rattle.formula_tree.specs.Run.{is_blank, begins_with, begins_with_any, after_while, begins_run, is_run_byte};

use digits::digit;

// Whether the byte is a blank: a space, a tab, a line feed or a carriage return.
pub(crate) fn is_blank(c: u8) -> bool
    ensures { result ≡ is_blank c }
{
    (c == b' ' || c == b'\t') || (c == b'\n' || c == b'\r')
}

// Whether the text begins with this byte.
pub(crate) fn begins_with(text: &[u8], byte: u8) -> bool
    ensures { result ≡ begins_with byte text.now }
{
    match text {
        [first, ..] => *first == byte,
        [] => false,
    }
}

// Whether the text begins with a blank.
pub(crate) fn begins_with_blank(text: &[u8]) -> bool
    ensures { result ≡ begins_with_any is_blank text.now }
{
    match text {
        [first, ..] => is_blank(*first),
        [] => false,
    }
}

// Whether the text begins with a digit.
pub(crate) fn begins_with_digit(text: &[u8]) -> bool
    ensures { result ≡ begins_with_any is_digit text.now }
{
    match text {
        [first, ..] => digit(*first),
        [] => false,
    }
}

// Whether the text begins with a run.
pub(crate) fn begins_with_run(text: &[u8]) -> bool
    ensures { result ≡ begins_with_any begins_run text.now }
{
    match text {
        [first, ..] => begins_run(*first),
        [] => false,
    }
}

// Whether a run begins with the byte.
fn begins_run(c: u8) -> bool
    ensures { result ≡ begins_run c }
{
    c.is_ascii_alphabetic() || (c == b'_' || c == b'$')
}

// Whether a run goes on with the byte.
fn is_run_byte(c: u8) -> bool
    ensures { result ≡ is_run_byte c }
{
    c.is_ascii_alphanumeric() || ((c == b'_' || c == b'.') || c == b'$')
}

// How many digits the text begins with.
pub(crate) fn digits_count(text: &[u8]) -> usize
    ensures count { result ≡ prefix_len is_digit text.now }
    ensures within { result ≤ length text.now }
{
    text.iter().take_while(|c| digit(**c)).count()
}

// The first bytes of the text, so many, or all where it has no more.
#[tactic(auto, using(std::proofs::lemmas::List::take_min))]
pub(crate) fn first_bytes(text: &[u8], count: usize) -> &[u8]
    ensures { result.now ≡ take count text.now }
{
    &text[..count.min(text.len())]
}

// What follows the blanks that the text begins with.
pub(crate) fn after_blanks(text: &str) -> &str
    ensures { result.now ≡ after_while is_blank text.now }
{
    split_front(text, blanks_count(text.as_bytes())).1
}

// How many blanks the text begins with.
fn blanks_count(text: &[u8]) -> usize
    ensures count { result ≡ prefix_len is_blank text.now }
    ensures within { result ≤ length text.now }
{
    text.iter().take_while(|c| is_blank(**c)).count()
}

// How many bytes of runs the text begins with.
fn run_length(text: &[u8]) -> usize
    ensures count { result ≡ prefix_len is_run_byte text.now }
    ensures within { result ≤ length text.now }
{
    text.iter().take_while(|c| is_run_byte(**c)).count()
}

// The bytes of runs that the text begins with, and what follows them.
pub(crate) fn split_run(text: &str) -> (&str, &str)
    ensures run { result.0.now ≡ take_while is_run_byte text.now }
    ensures rest { result.1.now ≡ after_while is_run_byte text.now }
{
    split_front(text, run_length(text.as_bytes()))
}

// The first bytes of the text, so many and each of them ASCII, and what follows them.
pub(crate) fn split_front(text: &str, count: usize) -> (&str, &str)
    requires { count ≤ prefix_len is_ascii text.now }
    ensures front { result.0.now ≡ take count text.now }
    ensures rest { result.1.now ≡ drop count text.now }
{
    text.split_at(count)
}

// What follows the ASCII byte that the text begins with.
pub(crate) fn after_byte(text: &str) -> &str
    requires { begins_with_any is_ascii text.now ≡ true }
    ensures { result.now ≡ drop 1 text.now }
{
    split_front(text, 1).1
}
