//! Tables of a document: their keys, and the numbers and texts at them.

ghost use Rattle.std.specs.Prelude.{◌≡◌, map, option_map};
ghost use Rattle.toml.specs.Data.{get_member};
ghost use Rattle.toml.specs.View.{table_view, view};
ghost use Rattle.genesis.specs.Document.{has_only, number_at, number_if_at};
ghost use Rattle.genesis.specs.View.{texts_of};

use toml::{Table, Value};

/// Whether the table has no keys but these.
pub fn has_only(table: &Table, known: &[&str]) -> bool
    ensures { result ≡ has_only (texts_of known.now) (table_view table.now) }
{
    for key in table.keys() {
        if !(&*known).contains(&key.as_str()) {
            return false;
        }
    }
    true
}

/// The value at a key.
pub fn value_at<'a>(table: &'a Table, key: &str) -> Option<&'a Value>
    ensures { option_map (λ value. view value.now) result ≡ get_member key.now (table_view table.now) }
{
    table.get(key)
}

/// The whole number at a key, if one stands there.
pub fn number_at(table: &Table, key: &str) -> Option<i64>
    ensures { result ≡ number_at key.now (table_view table.now) }
{
    value_at(table, key)?.as_integer()
}

/// The whole number at a key, and none where nothing stands there. None altogether where something else does.
#[tactic(auto, unfolding(crate::specs::Document::number_if_at))]
pub fn number_if_at(table: &Table, key: &str) -> Option<Option<i64>>
    ensures { result ≡ number_if_at key.now (table_view table.now) }
{
    match value_at(table, key) {
        None => Some(None),
        Some(value) => Some(Some(value.as_integer()?)),
    }
}
