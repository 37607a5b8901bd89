// Custom functions that are rules alone.
ghost use Rattle.std.specs.Prelude.{◌≡◌, ◌++◌, ◌∷◌, [], OnOk, OnErr, find, option_map};
ghost use Rattle.cell_addr.specs.Sheets.{same_name};
ghost use Rattle.custom_fn.specs.Registry.{custom_named};

use calc_eval::Customs;
use cell_addr::{Text, same_folded};
use cell_value::Scalar;
use custom_fn::Rule;
use std::alloc::{AllocError, Global};

// A custom function: its word, and the rule that it answers by.
#[derive(Drop)]
pub(crate) struct NamedRule {
    pub(crate) word: Text,
    pub(crate) rule: Rule,
}

/// Custom functions by their rules, in the order of their table.
///
/// Unlike a registry of stored calls they are plain data, which a caller in another language can give. A function is
/// found by looking at those before it.
#[derive(Drop)]
pub struct Rules {
    list: Vec<NamedRule>,
}

impl Rules {
    ghost use Rattle.rule_table.specs.Rules.{rules_of};

    // No functions.
    pub(crate) fn new(alloc: Global) -> Rules
        ensures { rules_of result ≡ [] }
    {
        Rules {
            list: Vec::new(alloc),
        }
    }

    // Puts a function after the others.
    pub(crate) fn push(&mut self, word: Text, rule: Rule) -> Result<(), AllocError>
        ensures ok { OnOk result (rules_of self.new ≡ rules_of self.old ++ (word, rule) ∷ []) }
        ensures err { OnErr result (rules_of self.new ≡ rules_of self.old) }
    {
        self.list.push(NamedRule { word, rule })?;
        Ok(())
    }

    // The function of this word, in any case of its ASCII letters.
    pub(crate) fn found(&self, word: &str) -> Option<&NamedRule>
        ensures { option_map (λ named. (named.now.word, named.now.rule)) result ≡ custom_named word.now (rules_of self.now) }
    {
        self.first(word)
    }

    // The first function of the list that has the word.
    fn first(&self, word: &str) -> Option<&NamedRule>
        ensures { option_map (λ named. named.now) result ≡ find (λ named. same_name named.word word.now) self.now.list.items }
    {
        self.list
            .iter()
            .find(|named| same_folded(named.word.as_str(), word))
    }
}

impl Customs for Rules {
    ghost use Rattle.rule_table.specs.Rules.{rules_of};

    ghost customs = { rules_of };

    fn has(&self, word: &str) -> bool {
        self.found(word).is_some()
    }

    fn answer(&self, word: &str, value: &Scalar) -> Option<Scalar> {
        match self.found(word) {
            Some(named) => Some(named.rule.value_of(value)),
            None => None,
        }
    }
}
