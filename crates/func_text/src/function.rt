// The functions and their words.
ghost use Rattle.std.specs.Prelude.{◌≡◌};
ghost use Rattle.func_text.specs.Functions.{function_named, function_word, takes_block};

/// A function of texts.
#[derive(Clone, Copy, PartialEq, Eq, Debug)]
pub enum TextFn {
    /// `LEN(T)`: how many characters the text has.
    Len,
    /// `LEFT(T [, N])`: the first characters.
    Left,
    /// `RIGHT(T [, N])`: the last characters.
    Right,
    /// `MID(T, N, N)`: so many characters from a position on.
    Mid,
    /// `CONCATENATE(T, ..)`: the texts one after another.
    Concatenate,
    /// `TRIM(T)`: the text without spaces at its ends, and with one between words.
    Trim,
    /// `REPT(T, N)`: the text so many times.
    Rept,
    /// `EXACT(T, T)`: whether the texts are the same.
    Exact,
    /// `FIND(T, T [, N])`: the position of the first text in the second.
    Find,
    /// `SUBSTITUTE(T, T, T [, N])`: the first text with the third in place of the second.
    Substitute,
    /// `VALUE(T)`: the number that the text spells.
    Value,
}

impl TextFn {
    /// All functions of texts.
    pub const ALL: [TextFn; 11] = [
        TextFn::Len,
        TextFn::Left,
        TextFn::Right,
        TextFn::Mid,
        TextFn::Concatenate,
        TextFn::Trim,
        TextFn::Rept,
        TextFn::Exact,
        TextFn::Find,
        TextFn::Substitute,
        TextFn::Value,
    ];

    /// The function's word, in capitals.
    pub fn word(self) -> &'static str
        ensures { result.now ≡ function_word self }
    {
        match self {
            TextFn::Len => "LEN",
            TextFn::Left => "LEFT",
            TextFn::Right => "RIGHT",
            TextFn::Mid => "MID",
            TextFn::Concatenate => "CONCATENATE",
            TextFn::Trim => "TRIM",
            TextFn::Rept => "REPT",
            TextFn::Exact => "EXACT",
            TextFn::Find => "FIND",
            TextFn::Substitute => "SUBSTITUTE",
            TextFn::Value => "VALUE",
        }
    }

    /// The function that the word names, in capitals.
    pub fn named(text: &str) -> Option<TextFn>
        ensures { result ≡ function_named text.now }
    {
        TextFn::ALL
            .iter()
            .copied()
            .find(|function| function.word() == text)
    }

    /// Whether the argument at this place, from 0, is a list or a block: none is, so a reference stands for
    /// its cell's value.
    pub fn takes_block(self, _at: usize) -> bool
        ensures { result ≡ takes_block self _at }
    {
        false
    }
}
