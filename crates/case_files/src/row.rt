// Tables of TOML that have a form.
ghost use Rattle.std.specs.Prelude.{◌≡◌, ◌||◌, Some, None, if◌then◌else◌, option_map, option_copied};
ghost use Rattle.std.specs.List.{list_all};
ghost use Rattle.toml.specs.Data.{get_member};
ghost use Rattle.toml.specs.View.{view, array_view, items_view, table_view};
ghost use Rattle.case_files.specs.Rows as rows;

use crate::form::{Key, number_of};
use toml::{Table, Value};

/// A table of a document, which has the keys that it must have, no others than it may have, and under each a value of
/// the key's form.
#[derive(Clone, Copy)]
pub struct Row<'a> {
    table: &'a Table,
}

impl<'a> Row<'a> {
    /// The row of a table that has the first keys, and of the others those that it likes; else `None`.
    pub fn new(table: &'a Table, needed: &[Key], more: &[Key]) -> Option<Row<'a>>
        ensures { option_map rows.members result ≡ (if rows.is_row needed.now more.now (table_view table.now) then Some (table_view table.now) else None) }
    {
        if has_all(table, needed) && are_allowed(table, needed, more) {
            Some(Row { table })
        } else {
            None
        }
    }

    /// The text under the key; `None` where the row has none there.
    pub fn text(&self, key: &str) -> Option<&'a str>
        ensures { option_copied result ≡ rows.text_at key.now (rows.members self.now) }
    {
        value_at(self.table, key)?.as_str()
    }

    /// The number under the key; `None` where the row has none there.
    pub fn number(&self, key: &str) -> Option<u32>
        ensures { result ≡ rows.number_at key.now (rows.members self.now) }
    {
        number_of(value_at(self.table, key)?)
    }

    /// The truth value under the key; `None` where the row has none there.
    pub fn truth(&self, key: &str) -> Option<bool>
        ensures { result ≡ rows.truth_at key.now (rows.members self.now) }
    {
        value_at(self.table, key)?.as_bool()
    }

    /// The values of the array under the key; `None` where the row has no array there.
    pub fn values(&self, key: &str) -> Option<&'a [Value]>
        ensures { option_map (λ values. items_view values.now) result ≡ rows.values_at key.now (rows.members self.now) }
    {
        let values = value_at(self.table, key)?.as_array()?;
        Some(values)
    }

    /// The table under the key; `None` where the row has none there.
    pub fn table(&self, key: &str) -> Option<&'a Table>
        ensures { option_map (λ table. table_view table.now) result ≡ rows.table_at key.now (rows.members self.now) }
    {
        value_at(self.table, key)?.as_table()
    }
}

// What stands under a key of a table.
fn value_at<'a>(table: &'a Table, key: &str) -> Option<&'a Value>
    ensures { option_map (λ value. view value.now) result ≡ get_member key.now (table_view table.now) }
{
    table.get(key)
}

// Whether the table has each of the keys, with a value of its form under it.
fn has_all(table: &Table, keys: &[Key]) -> bool
    ensures { result ≡ list_all (rows.has (table_view table.now)) keys.now }
{
    keys.iter().all(|key| has(table, key))
}

// Whether the table has the key, with a value of its form under it.
fn has(table: &Table, key: &Key) -> bool
    ensures { result ≡ rows.has (table_view table.now) key.now }
{
    match value_at(table, key.0) {
        Some(value) => key.1.is_of(value),
        None => false,
    }
}

// Whether each key of the table is one of these, and the value under it of its form.
fn are_allowed(table: &Table, needed: &[Key], more: &[Key]) -> bool
    ensures { result ≡ rows.are_allowed needed.now more.now (table_view table.now) }
{
    'members: for (name, value) in table.iter() {
        if !allows(needed, name, value) && !allows(more, name, value) {
            return false;
        }
    }
    true
}

// Whether the name is one of the keys, and the value of its form.
fn allows(keys: &[Key], name: &str, value: &Value) -> bool
    ensures { result ≡ rows.allows keys.now name.now (view value.now) }
{
    keys.iter().any(|key| is_for(key, name, value))
}

// Whether the name is the key, and the value of its form.
fn is_for(key: &Key, name: &str, value: &Value) -> bool
    ensures { result ≡ rows.is_for name.now (view value.now) key.now }
{
    key.0 == name && key.1.is_of(value)
}
