// What stands under keys.
ghost use Rattle.std.specs.Prelude.{◌≡◌};
ghost use Rattle.toml.specs.View.{view};
ghost use Rattle.case_files.specs.Rows.{as_number, is_of};

use toml::Value;

/// A key, and the form of what stands under it.
pub type Key = (&'static str, Form);

/// A form of values.
#[derive(Clone, Copy, PartialEq, Eq, Debug)]
pub enum Form {
    /// A text.
    Text,
    /// A whole number of 32 bits without a sign.
    Number,
    /// `true` or `false`.
    Truth,
    /// An array of values of any forms.
    Array,
    /// A table.
    Table,
}

impl Form {
    // Whether the value is of the form.
    pub(crate) fn is_of(self, value: &Value) -> bool
        ensures { result ≡ is_of self (view value.now) }
    {
        match self {
            Form::Text => value.is_str(),
            Form::Number => number_of(value).is_some(),
            Form::Truth => value.is_bool(),
            Form::Array => value.is_array(),
            Form::Table => value.is_table(),
        }
    }
}

// The number that a value is; `None` where it is none of 32 bits without a sign.
pub(crate) fn number_of(value: &Value) -> Option<u32>
    ensures { result ≡ as_number (view value.now) }
{
    u32::try_from(value.as_integer()?).ok()
}
