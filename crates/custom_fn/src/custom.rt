// Custom functions: a name, a rule, and a stored call that answers the rule.
ghost use Rattle.std.specs.Prelude.{◌≡◌};
ghost use Rattle.custom_fn.specs.Rule.{IsValue, rule_value};

use crate::rule::Rule;
use cell_addr::Text;
use cell_value::Scalar;

/// A custom function of one value: its name, its rule, and a call that answers the rule.
#[derive(Drop)]
pub struct Custom {
    name: Text,
    rule: Rule,
    call: Box<dyn Fn(&Scalar) -> Scalar + Drop>,

    // The call may be made of every value.
    ghost callable: { IsAlwaysCallable call },
    // What it answers is what the rule answers.
    ghost answers: { (x : _) (r : _) → IsValue x.now → post call x r → r ≡ rule_value rule x.now },
}

impl Custom {
    ghost use Rattle.custom_fn.specs.Custom.{name_of, rule_of};

    /// The function of this name and rule. The caller owes that the call answers the rule.
    pub fn new(name: Text, rule: Rule, call: Box<dyn Fn(&Scalar) -> Scalar + Drop>) -> Custom
        requires callable { IsAlwaysCallable call }
        requires answers { (x : _) (r : _) → IsValue x.now → post call x r → r ≡ rule_value rule x.now }
        ensures name { name_of result ≡ name }
        ensures rule { rule_of result ≡ rule }
    {
        Custom { name, rule, call }
    }

    /// The function's name, as it was given.
    pub fn name(&self) -> &Text
        ensures { result.now ≡ name_of self.now }
    {
        &self.name
    }

    /// What the function answers of a value: what its rule answers.
    pub fn answer(&self, x: &Scalar) -> Scalar
        ensures { result ≡ rule_value (rule_of self.now) x.now }
    {
        keeps_inside(x);
        called(&self.call, x)
    }
}

// The answer of a stored call.
fn called(call: &Box<dyn Fn(&Scalar) -> Scalar + Drop>, x: &Scalar) -> Scalar
    requires { IsAlwaysCallable call.now }
    ensures { post call.now x.entry result }
{
    call(x)
}

// A number lies inside the limits.
fn keeps_inside(x: &Scalar)
    ensures { IsValue x.now }
{
    if let Scalar::Number(number) = x {
        number.size();
    }
}
