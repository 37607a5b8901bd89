//! What holds of the meaning of formulas: laws, with nothing to run.

ghost use Rattle.calc_terms.specs.Laws.{CostsRestOnNeeds, LinksAreNeeds, ReadsNeeds, WordsAreFunctions};

/// A tree means the same wherever the places and the names that it mentions, and the places of these names,
/// are the same.
pub fn trees_read_their_needs()
    ensures { ReadsNeeds }
{}

/// A tree takes as many steps at most wherever these are the same.
pub fn costs_rest_on_needs()
    ensures { CostsRestOnNeeds }
{}

/// A tree mentions exactly the places that its links lead to, which [`formula_tree::places_of`] lists.
pub fn links_are_needs()
    ensures { LinksAreNeeds }
{}

/// [`custom_fn::FUNCTION_WORDS`], which no custom function may have, are the words of the functions that every workbook has: each
/// names one, and each function has one.
pub fn words_are_functions()
    ensures { WordsAreFunctions }
{}
