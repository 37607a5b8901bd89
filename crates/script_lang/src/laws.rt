//! What holds of the table of commands: a law, with nothing to run.
ghost use Rattle.script_lang.specs.Laws.{WordsAreNamed};

/// Each word is found as its line writes it; so no two words are written alike, and none is left out.
pub fn words_are_named()
    ensures { WordsAreNamed }
{}
