// The custom functions of a program, in the order in which they were added.
ghost use Rattle.std.specs.Prelude.{◌≡◌, ◌++◌, ◌∷◌, [], IfOk, OnOk, OnErr, IfSome, IfNone, slice_get};
ghost use Rattle.std.specs.Option.{option_map};
ghost use Rattle.custom_fn.specs.Custom.{name_of};
ghost use Rattle.custom_fn.specs.internal.Keyed.{AreKeyed, under};

use crate::custom::Custom;
use crate::words::is_function_word;
use cell_addr::{Text, is_word};
use folded_key::FoldedKey;
use indexmap::IndexMap;
use std::alloc::{AllocError, Global};
use thiserror::Error;

/// Why a custom function could not be added.
#[derive(Clone, Copy, PartialEq, Eq, Debug, Error)]
pub enum RegError {
    /// Another function has the name, in some case of its letters.
    #[error("another function has the name")]
    NameTaken,
    /// The name hasn't the form of a function's word.
    #[error("the name is no word")]
    NameInvalid,
    /// There was no memory for one more function.
    #[error("there is no memory for one more function")]
    NoMemory,
}

/// Custom functions of different names, in the order in which they were added.
pub struct Registry {
    alloc: Global,
    customs: IndexMap<FoldedKey<'static>, Custom>,

    // Each function stands under its name.
    ghost keyed: { AreKeyed customs.entries },
}

// Written out, so that whoever drops one calls one function.
impl Drop for Registry {
    fn drop(self) {
        let Registry {
            alloc: _,
            customs: _customs,
        } = self;
    }
}

impl Registry {
    ghost use Rattle.custom_fn.specs.Custom.{rule_of};
    ghost use Rattle.custom_fn.specs.Registry.{customs_of, custom_named, AnswersRefusal, refusal_of};

    /// No functions.
    pub fn new(alloc: Global) -> Result<Registry, AllocError>
        ensures { IfOk result (λ registry. customs_of registry ≡ []) }
    {
        Ok(Registry {
            alloc,
            customs: IndexMap::new(alloc),
        })
    }

    /// The function of this name, in any case of its ASCII letters. Takes no memory, and costs about the
    /// length of the name.
    pub fn find(&self, name: &str) -> Option<&Custom>
        ensures { option_map (λ c. (name_of c.now, rule_of c.now)) result ≡ custom_named name.now (customs_of self.now) }
    {
        let index = index_under(&self.customs, name)?;
        let (_, custom) = self.customs.get_index(index)?;
        Some(custom)
    }

    /// Adds a function after the others.
    ///
    /// # Errors
    /// `NameInvalid` exactly where the name hasn't the form of a function's word; `NameTaken` exactly where
    /// it has, and every workbook has a function of this name or the registry has one, in some case of its
    /// letters. An error leaves the registry as it was.
    pub fn add(&mut self, custom: Custom) -> Result<(), RegError>
        ensures ok { OnOk result (customs_of self.new ≡ customs_of self.old ++ (name_of custom, rule_of custom) ∷ []) }
        ensures err { OnErr result (customs_of self.new ≡ customs_of self.old) }
        ensures refusal { AnswersRefusal result (refusal_of (customs_of self.old) (name_of custom)) }
    {
        if !is_word(custom.name().as_bytes()) {
            return Err(RegError::NameInvalid);
        }
        if is_function_word(custom.name().as_str()) || self.find(custom.name().as_str()).is_some() {
            return Err(RegError::NameTaken);
        }
        match put_last(self.alloc, &mut self.customs, custom) {
            Ok(()) => Ok(()),
            Err(_) => Err(RegError::NoMemory),
        }
    }
}

// Where the function of this name stands, in some case of its letters.
fn index_under<'n>(customs: &IndexMap<FoldedKey<'n>, Custom>, name: &'n str) -> Option<usize>
    ensures some { IfSome result (λ i. option_map (λ e. e.1) (slice_get customs.now.entries i) ≡ under name.now customs.now.entries) }
    ensures none { IfNone result (under name.now customs.now.entries ≡ None) }
{
    customs.get_index_of(&FoldedKey::Asked(name))
}

// Puts a function of a new name after the others, under its name.
fn put_last(
    alloc: Global,
    customs: &mut IndexMap<FoldedKey<'static>, Custom>,
    custom: Custom,
) -> Result<(), AllocError>
    requires keyed { AreKeyed customs.old.entries }
    requires new { under (name_of custom) customs.old.entries ≡ None }
    ensures keyed { AreKeyed customs.new.entries }
    ensures ok { OnOk result (customs.new.entries ≡ customs.old.entries ++ (FoldedKey.Own (name_of custom), custom) ∷ []) }
    ensures err { OnErr result (customs.new.entries ≡ customs.old.entries) }
{
    let name = custom.name().copy(alloc)?;
    customs.insert(FoldedKey::Own(name), custom)?;
    Ok(())
}
