//! What holds of every formula: laws, with nothing to run.

ghost use Rattle.formula_tree.specs.Laws.{ReaderIsExact, TextReaderIsExact, OneTree, CanonicalSpells, SpelledIsProper, SpelledIsListed, TokensFollow, SameTextSameTree, ComesBack, WholesAreTheirCorners, ListsOnce};
ghost use Rattle.cell_addr.specs.Sheets.{same_name};
ghost use Rattle.formula_tree.specs.Links.{same_link};
ghost use Rattle.formula_tree.specs.Mentions.{MentionsAreAll, same_mention};

/// Reading by operator precedence answers a tree exactly where the tokens spell it and it has at most
/// 64 levels.
pub fn reader_is_exact()
    ensures { ReaderIsExact }
{}

/// Reading a text answers a tree exactly where the text spells it and it has at most 64 levels.
pub fn text_reader_is_exact()
    ensures { TextReaderIsExact }
{}

/// No text spells two trees.
pub fn no_text_spells_two()
    ensures { OneTree }
{}

/// The canonical text of a proper tree whose sheets are listed spells that tree.
pub fn canonical_text_spells()
    ensures { CanonicalSpells }
{}

/// The tree that a text spells is proper.
pub fn a_texts_tree_is_proper()
    ensures { SpelledIsProper }
{}

/// The sheets of a tree that a text spells are listed, where each sheet that a name finds has a name by
/// which it is found.
pub fn a_texts_sheets_are_listed()
    ensures { SpelledIsListed }
{}

/// The tokens of a text are each token in front of those of what follows it; blanks mean nothing.
pub fn tokens_follow()
    ensures { TokensFollow }
{}

/// Formulas at one home have the same text exactly where they have the same tree as seen from there,
/// which a pool holds once.
pub fn same_text_is_same_tree()
    ensures { SameTextSameTree }
{}

/// A tree comes back from how it is seen from a home.
pub fn a_tree_comes_back()
    ensures { ComesBack }
{}

/// A proper whole range lies within the limits of a sheet, and its corners are those of its block.
pub fn wholes_are_their_corners()
    ensures { WholesAreTheirCorners }
{}

/// Names, and places and blocks, and all that is mentioned, are listed once each, in the order of first
/// occurrence.
pub fn each_is_listed_once()
    ensures names { ListsOnce same_name }
    ensures links { ListsOnce same_link }
    ensures mentions { ListsOnce same_mention }
{}

/// The places and blocks that a tree mentions are those that its value depends on, and the names are its
/// names.
pub fn mentions_are_all()
    ensures { MentionsAreAll }
{}
