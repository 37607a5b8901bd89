// Custom functions under their names.
ghost use Rattle.std.specs.Prelude.{◌≡◌};
ghost use Rattle.custom_fn.specs.Rule.{rule_value};
ghost use Rattle.tariffs.specs.Tariffs as tariff;

use cell_addr::{Text, is_word};
use cell_value::Scalar;
use custom_fn::{Custom, RegError, Registry, is_function_word};
use fix_num::Fixed;
use std::alloc::{AllocError, Global};
use tariffs::{levy, levy_rule};

// Names in the order in which functions of them are added, and how each is refused, if it is.
const NAMES: &[(&str, Option<RegError>)] = &[
    ("LEVY", None),
    ("levy", Some(RegError::NameTaken)),
    ("SUM", Some(RegError::NameTaken)),
    ("EoMonth", Some(RegError::NameTaken)),
    ("1X", Some(RegError::NameInvalid)),
    ("", Some(RegError::NameInvalid)),
    ("A-B", Some(RegError::NameInvalid)),
    ("_tax.2", None),
];

// A custom function of this name, which answers as the levy does.
fn custom(alloc: Global, name: &str) -> Result<Custom, AllocError> {
    let call = Box::new(
        alloc,
        |x: &Scalar| -> Scalar
            ensures { result ≡ rule_value tariff.levy x.now }
        { levy(x) },
    )?;
    let rule = levy_rule(alloc)?;
    Ok(Custom::new(Text::from_str(alloc, name)?, rule, call))
}

// Adds a function of this name to the registry. Whether it is refused so, or taken.
fn is_added(
    alloc: Global,
    registry: &mut Registry,
    name: &str,
    refusal: &Option<RegError>,
) -> Result<bool, AllocError> {
    let levy = custom(alloc, name)?;
    Ok(registry.add(levy).err() == *refusal)
}

// Whether the levy is found by its name in other letters, and answers its rule.
fn levy_is_found(registry: &Registry) -> bool {
    match registry.find("Levy") {
        Some(levy) => {
            let due = levy.answer(&Scalar::Truth(true));
            levy.name().as_str() == "LEVY" && due == Scalar::from(Fixed::from_millionths(100_000))
        }
        None => false,
    }
}

// Whether a function that was refused is not found, and one that was taken is.
fn others_are_found(registry: &Registry) -> bool {
    registry.find("SUM").is_none() && registry.find("_TAX.2").is_some()
}

#[test]
fn functions_are_added_under_new_names(rt: HostRuntime) -> Result<(), AllocError> {
    let mut registry = Registry::new(rt.alloc())?;
    for (name, refusal) in NAMES {
        assert!(rt;
            is_added(rt.alloc(), &mut registry, name, refusal)?,
            "{name}"
        );
    }
    assert!(rt; levy_is_found(&registry) && others_are_found(&registry));
    Ok(())
}

#[test]
fn words_are_those_of_functions(rt: HostRuntime) {
    assert!(rt; is_word(b"_a.1") && !is_word(b".a") && is_function_word("Sum"));
}
