//! What holds of the words of the command line: laws, with nothing to run.
ghost use Rattle.command_words.specs.Items.{ItemsAreRead, MeaningsAreItems, OptionsStandOnce};
ghost use Rattle.command_words.specs.Laws.{MeaningsAreProper, WordsAreBooks};

/// Words mean nothing unless each number is in its range, no name of a file begins with a dash, that of a script isn't
/// empty, and a generated list of commands stands with neither a script nor a book.
pub fn meanings_are_proper()
    ensures { MeaningsAreProper }
{}

/// Words that begin with no dash are books, in their order. A first `--` behind them is left out, and so is what a dash
/// means in the words behind it: all of them are books, and mean nothing where one begins with a dash.
pub fn words_are_books()
    ensures { WordsAreBooks }
{}

/// Options with their values, the flag and books, in any order: words that are such items say what the items give, where
/// no option and no flag stands twice. The value of an option is the next word, or stands behind `=`. A `--` may stand
/// behind the items, and then books.
pub fn items_are_read()
    ensures { ItemsAreRead }
{}

/// Words that mean something are such items, and mean what the items give: all other words mean nothing.
pub fn meanings_are_items()
    ensures { MeaningsAreItems }
{}

/// Items of which one gives an option or the flag a second time mean nothing, with a `--` and books behind them or
/// without.
pub fn options_stand_once()
    ensures { OptionsStandOnce }
{}
