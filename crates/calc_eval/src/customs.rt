// Custom functions as formulas ask for them.
ghost use Rattle.std.specs.Prelude.{◌≡◌, ℕ, List, is_some};
ghost use Rattle.std.specs.Option.{option_map};
ghost use Rattle.custom_fn.specs.Registry.{custom_named, customs_of};
ghost use Rattle.custom_fn.specs.Rule.{rule_value};
ghost use Rattle.custom_fn.specs.declared.rule.Rule.{Rule};

use cell_value::Scalar;
use custom_fn::Registry;

/// Custom functions, by their words: what answers the calls of formulas that are none of the engine's own functions.
///
/// A [`Registry`] is one. Whoever holds formulas is generic over it.
pub trait Customs: Drop {
    /// Their words and rules.
    ghost customs: { Self → List (List ℕ × Rule) };

    /// Whether there is a function of this word.
    fn has(&self, word: &str) -> bool
        ensures { result ≡ is_some (custom_named word.now (customs self.now)) };

    /// What the function of this word answers of a value; `None` where there is none.
    fn answer(&self, word: &str, value: &Scalar) -> Option<Scalar>
        ensures { result ≡ option_map (λ custom. rule_value custom.1 value.now) (custom_named word.now (customs self.now)) };
}

impl Customs for Registry {
    ghost customs = { customs_of };

    fn has(&self, word: &str) -> bool {
        self.find(word).is_some()
    }

    fn answer(&self, word: &str, value: &Scalar) -> Option<Scalar> {
        match self.find(word) {
            Some(custom) => Some(custom.answer(value)),
            None => None,
        }
    }
}
