// Laws of lists of words.
ghost use Rattle.name_table.specs.Laws.{WordsAreNumbered};

/// Of a proper list of words, a text has the number of the word that is the text with its ASCII capitals made small, and no
/// other. So the same number is found by every spelling of a word, and different words have different numbers.
pub fn words_are_numbered()
    ensures { WordsAreNumbered }
{}
