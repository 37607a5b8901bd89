//! What holds of every formula's text: laws, with nothing to run.

ghost use Rattle.formula_tree.specs.Laws.{OneTree, CanonicalSpells};
ghost use Rattle.formula_parse.specs.Laws.{CanonicalIsRead, ReadAgain, OnePlace, FormulasGoRight};

/// No text spells two trees.
pub fn no_text_spells_two()
    ensures { OneTree }
{}

/// The canonical text of a proper tree whose sheets are listed spells that tree.
pub fn canonical_text_spells()
    ensures { CanonicalSpells }
{}

/// The canonical text of a proper tree of at most 64 levels, whose sheets are listed, is read as that tree.
pub fn canonical_text_is_read()
    ensures { CanonicalIsRead }
{}

/// The tree that a text is read as is read again from its canonical text.
pub fn what_is_read_is_read_again()
    ensures { ReadAgain }
{}

/// A text goes wrong at one place at most.
pub fn no_text_goes_wrong_at_two()
    ensures { OnePlace }
{}

/// A formula goes wrong nowhere.
pub fn no_formula_goes_wrong()
    ensures { FormulasGoRight }
{}
