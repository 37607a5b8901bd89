// The two custom functions, over calls that their maker stores.
ghost use Rattle.std.specs.Prelude.{◌≡◌, ◌∷◌, ◌++◌, [], IfOk, OnOk, None, codes};
ghost use Rattle.custom_fn.specs.Custom.{name_of, rule_of};
ghost use Rattle.custom_fn.specs.Registry.{customs_of, refusal_of};
ghost use Rattle.custom_fn.specs.Rule.{IsValue, rule_value};
ghost use Rattle.tariffs.specs.Tariffs as tariff;

use crate::rules::{levy_rule, postage_rule};
use cell_addr::Text;
use cell_value::Scalar;
use custom_fn::{Custom, RegError, Registry};
use std::alloc::{AllocError, Global};

/// The program's custom functions, POSTAGE and LEVY, of two calls that answer their rules, as
/// [`crate::postage`] and [`crate::levy`] do. The caller makes the calls, since who makes a stored
/// call can't hand it out with what it answers.
pub fn customs(
    alloc: Global,
    postage: Box<dyn Fn(&Scalar) -> Scalar + Drop>,
    levy: Box<dyn Fn(&Scalar) -> Scalar + Drop>,
) -> Result<Registry, AllocError>
    requires postage_callable { IsAlwaysCallable postage }
    requires postage_answers { (x : _) (r : _) → IsValue x.now → post postage x r → r ≡ rule_value tariff.postage x.now }
    requires levy_callable { IsAlwaysCallable levy }
    requires levy_answers { (x : _) (r : _) → IsValue x.now → post levy x r → r ≡ rule_value tariff.levy x.now }
    ensures { IfOk result (λ registry. customs_of registry ≡ (codes "POSTAGE", tariff.postage) ∷ (codes "LEVY", tariff.levy) ∷ []) }
{
    let mut registry = Registry::new(alloc)?;
    let name = Text::from_str(alloc, "POSTAGE")?;
    add(
        &mut registry,
        Custom::new(name, postage_rule(alloc)?, postage),
    )?;
    let name = Text::from_str(alloc, "LEVY")?;
    add(&mut registry, Custom::new(name, levy_rule(alloc)?, levy))?;
    Ok(registry)
}

// Adds a function of a name that no other function has.
fn add(registry: &mut Registry, custom: Custom) -> Result<(), AllocError>
    requires { refusal_of (customs_of registry.old) (name_of custom) ≡ None }
    ensures { OnOk result (customs_of registry.new ≡ customs_of registry.old ++ (name_of custom, rule_of custom) ∷ []) }
{
    match registry.add(custom) {
        Ok(()) => Ok(()),
        Err(RegError::NoMemory) => Err(AllocError),
        Err(_) => unreachable!(),
    }
}
