// The parts of a text around an ASCII character.
ghost use Rattle.std.specs.Prelude.{◌≡◌, ◌<◌};
ghost use Rattle.std.specs.Option.{option_map, option_copied};
ghost use Rattle.cell_addr.specs.Parts.{split_once, strip_prefix};

/// What precedes and what follows the first such character, where there is one: `str::split_once` of an
/// ASCII character, said of lists of bytes.
pub fn split_once(text: &str, c: char) -> Option<(&str, &str)>
    requires { c < 128 }
    ensures { option_map (λ p. (p.0.now, p.1.now)) result ≡ split_once c text.now }
{
    text.split_once(c)
}

/// What follows the character that the text begins with, where it is this one: `str::strip_prefix` of an
/// ASCII character, said of lists of bytes.
pub fn strip_prefix(text: &str, c: char) -> Option<&str>
    requires { c < 128 }
    ensures { option_copied result ≡ strip_prefix c text.now }
{
    text.strip_prefix(c)
}
