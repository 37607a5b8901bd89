// Laws of SUBSTITUTE and TRIM. Each function does nothing: what it ensures is the law.
ghost use Rattle.func_text.specs.Laws.{ReplacedFromTheLeft, TrimsToWords};

/// Occurrences are replaced from the left, one after another: what is before the first one stays, what
/// stands for it follows, and then the rest, treated alike.
pub fn replaced_from_the_left()
    ensures { ReplacedFromTheLeft }
{}

/// What TRIM leaves has no space at either end and no two side by side, and the words of the text in order.
pub fn trims_to_words()
    ensures { TrimsToWords }
{}
