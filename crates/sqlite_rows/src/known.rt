//! Whether a database has the tables of SQL mode and nothing else.
ghost use Rattle.std.specs.Prelude.{◌≡◌, [], ◌∷◌, IsTrue, None, Some, codes, false, true};
ghost use Rattle.sqlite_value.specs.Keys.{plain};
ghost use Rattle.sqlite.specs.Kind.TheVariants.{Any};
ghost use Rattle.sqlite_rows.specs.Tables.{column_of, cookies, cookies_columns, index_of, indexes};
ghost use Rattle.sqlite_rows.specs.Tables.{item_columns, items, items2, items2_moments, items2_tree};
ghost use Rattle.sqlite_rows.specs.Tables.{items_moments, items_tree, known, lock_columns};
ghost use Rattle.sqlite_rows.specs.Tables.{number_column};

use sqlite_items::Items;
use sqlite_schema::schema::{Column, Index, Kind, Schema, Stamps, Table};
use sqlite_value::keys::{Collation, Order};
use sqlite_value::value::Value;

/// Whether the column has this name and type, and no rule of its own but that.
fn is_column(column: &Column, name: &str, kind: Kind, not_null: bool) -> bool
    ensures { IsTrue result → column.now ≡ column_of name.now kind not_null }
{
    column.name.as_slice() == name.as_bytes()
        && column.kind == kind
        && !column.is_strict
        && column.not_null == not_null
        && matches!(column.default, Value::Null)
        && matches!(column.collation, Collation::Binary)
}

/// Whether the index has this name and is over these columns, each rising.
fn is_index(
    index: &Index,
    name: &str,
    tree: u32,
    table: u32,
    columns: &[usize],
    is_unique: bool,
) -> bool
    ensures { IsTrue result → index.now ≡ index_of name.now tree table columns.now is_unique }
{
    index.name.as_slice() == name.as_bytes()
        && index.tree == tree
        && index.table == table
        && index.columns.as_slice() == columns
        && index.order.digits == 0
        && index.is_unique == is_unique
}

/// Whether no default reads the time.
fn has_no_stamps(stamps: &Stamps) -> bool
    ensures { IsTrue result → stamps.now ≡ record { places = []; terms = []; formats = [] } }
{
    stamps.places.as_slice().is_empty()
        && stamps.terms.roots.as_slice().is_empty()
        && stamps.formats.as_slice().is_empty()
}

/// Whether the table states no rule but those of its columns and keys.
fn has_no_rules(table: &Table) -> bool
    ensures checks { IsTrue result → table.now.checks ≡ [] }
    ensures references { IsTrue result → table.now.references ≡ [] }
    ensures computed { IsTrue result → table.now.computed ≡ [] }
    ensures stamps { IsTrue result
        → table.now.stamps ≡ record { places = []; terms = []; formats = [] } }
    ensures counted { IsTrue result → table.now.is_counted ≡ false }
{
    table.checks.roots.as_slice().is_empty()
        && table.references.as_slice().is_empty()
        && table.computed.as_slice().is_empty()
        && has_no_stamps(&table.stamps)
        && !table.is_counted
}

/// Whether this names the first column, which is not the rowid.
fn is_first(places: &Items<usize>) -> bool
    ensures { IsTrue result → places.now ≡ 1 ∷ [] }
{
    places.as_slice() == [1].as_slice()
}

/// Whether this has one key, the first column.
fn are_first(keys: &[Items<usize>]) -> bool
    ensures { IsTrue result → keys.now ≡ (1 ∷ []) ∷ [] }
{
    let [places] = keys else {
        return false;
    };
    is_first(places)
}

/// Whether this has one order, in which each column rises.
fn are_plain(orders: &[Order]) -> bool
    ensures { IsTrue result → orders.now ≡ plain ∷ [] }
{
    let [order] = orders else {
        return false;
    };
    order.digits == 0
}

/// Whether the only key of the table is its first column, which is not the rowid.
fn has_first_key(table: &Table) -> bool
    ensures key { IsTrue result → table.now.key ≡ None }
    ensures primary { IsTrue result → table.now.primary ≡ 1 ∷ [] }
    ensures uniques { IsTrue result → table.now.uniques ≡ (1 ∷ []) ∷ [] }
    ensures orders { IsTrue result → table.now.orders ≡ plain ∷ [] }
{
    table.key.is_none()
        && is_first(&table.primary)
        && are_first(table.uniques.as_slice())
        && are_plain(table.orders.as_slice())
}

/// Whether these are the first columns of an item's row.
fn are_first_columns(key: &Column, body: &Column, minutes: &Column) -> bool
    ensures key { IsTrue result → key.now ≡ column_of (codes "key") Any false }
    ensures body { IsTrue result → body.now ≡ column_of (codes "body") Any true }
    ensures minutes { IsTrue result → minutes.now ≡ number_column (codes "minutes") }
{
    is_column(key, "key", Kind::Any, false)
        && is_column(body, "body", Kind::Any, true)
        && is_column(minutes, "minutes", Kind::Integer, true)
}

/// Whether these are the columns behind them.
fn are_next_columns(fresh: &Column, cookie: &Column, since: &Column) -> bool
    ensures fresh { IsTrue result → fresh.now ≡ number_column (codes "fresh") }
    ensures cookie { IsTrue result → cookie.now ≡ number_column (codes "cookie") }
    ensures since { IsTrue result → since.now ≡ number_column (codes "since") }
{
    is_column(fresh, "fresh", Kind::Integer, true)
        && is_column(cookie, "cookie", Kind::Integer, true)
        && is_column(since, "since", Kind::Integer, true)
}

/// Whether these are the columns of the moments of `items`.
fn are_items_moments(columns: &[Column]) -> bool
    ensures { IsTrue result → columns.now ≡ items_moments }
{
    let [touched, expiry] = columns else {
        return false;
    };
    is_column(touched, "touched", Kind::Integer, true)
        && is_column(expiry, "expiry", Kind::Integer, true)
}

/// Whether these are the columns of `items` from `fresh` on.
fn are_items_locks(columns: &[Column]) -> bool
    ensures { IsTrue result → columns.now ≡ lock_columns items_moments }
{
    let [fresh, cookie, since, moments @ ..] = columns else {
        return false;
    };
    are_next_columns(fresh, cookie, since) && are_items_moments(moments)
}

/// Whether these are the columns of `items`.
fn are_items_columns(columns: &[Column]) -> bool
    ensures { IsTrue result → columns.now ≡ item_columns items_moments }
{
    let [key, body, minutes, more @ ..] = columns else {
        return false;
    };
    are_first_columns(key, body, minutes) && are_items_locks(more)
}

/// Whether the table is `items`, which earlier versions wrote.
fn is_items(table: &Table) -> bool
    ensures { IsTrue result → table.now ≡ items }
{
    table.name.as_slice() == "items".as_bytes()
        && table.tree == 0
        && are_items_columns(table.columns.as_slice())
        && has_first_key(table)
        && has_no_rules(table)
}

/// Whether these are the columns of the moments of `items2`.
fn are_items2_moments(columns: &[Column]) -> bool
    ensures { IsTrue result → columns.now ≡ items2_moments }
{
    let [touched, ends, expiry] = columns else {
        return false;
    };
    is_column(touched, "touched", Kind::Integer, true)
        && is_column(ends, "ends", Kind::Integer, true)
        && is_column(expiry, "expiry", Kind::Integer, true)
}

/// Whether these are the columns of `items2` from `fresh` on.
fn are_items2_locks(columns: &[Column]) -> bool
    ensures { IsTrue result → columns.now ≡ lock_columns items2_moments }
{
    let [fresh, cookie, since, moments @ ..] = columns else {
        return false;
    };
    are_next_columns(fresh, cookie, since) && are_items2_moments(moments)
}

/// Whether these are the columns of `items2`.
fn are_items2_columns(columns: &[Column]) -> bool
    ensures { IsTrue result → columns.now ≡ item_columns items2_moments }
{
    let [key, body, minutes, more @ ..] = columns else {
        return false;
    };
    are_first_columns(key, body, minutes) && are_items2_locks(more)
}

/// Whether the table is `items2`.
fn is_items2(table: &Table) -> bool
    ensures { IsTrue result → table.now ≡ items2 }
{
    table.name.as_slice() == "items2".as_bytes()
        && table.tree == 3
        && are_items2_columns(table.columns.as_slice())
        && has_first_key(table)
        && has_no_rules(table)
}

/// Whether the only key of the table is its first column, which is the rowid.
fn has_rowid_key(table: &Table) -> bool
    ensures key { IsTrue result → table.now.key ≡ Some 0 }
    ensures primary { IsTrue result → table.now.primary ≡ 0 ∷ [] }
    ensures uniques { IsTrue result → table.now.uniques ≡ [] }
    ensures orders { IsTrue result → table.now.orders ≡ [] }
{
    table.key == Some(0)
        && table.primary.as_slice() == [0].as_slice()
        && table.uniques.as_slice().is_empty()
        && table.orders.as_slice().is_empty()
}

/// Whether these are the columns of `cookies`.
fn are_cookies_columns(columns: &[Column]) -> bool
    ensures { IsTrue result → columns.now ≡ cookies_columns }
{
    let [id, last] = columns else {
        return false;
    };
    is_column(id, "id", Kind::Integer, false) && is_column(last, "last", Kind::Integer, true)
}

/// Whether the table is `cookies`.
fn is_cookies(table: &Table) -> bool
    ensures { IsTrue result → table.now ≡ cookies }
{
    table.name.as_slice() == "cookies".as_bytes()
        && table.tree == 6
        && are_cookies_columns(table.columns.as_slice())
        && has_rowid_key(table)
        && has_no_rules(table)
}

/// Whether these are the indexes of `items`.
fn are_old_indexes(keys: &Index, expiries: &Index) -> bool
    ensures keys { IsTrue result
        → keys.now ≡ index_of (codes "sqlite_autoindex_items_1") 1 items_tree (1 ∷ []) true }
    ensures expiries { IsTrue result
        → expiries.now ≡ index_of (codes "items_by_expiry") 2 items_tree (8 ∷ 1 ∷ []) false }
{
    is_index(keys, "sqlite_autoindex_items_1", 1, 0, &[1], true)
        && is_index(expiries, "items_by_expiry", 2, 0, &[8, 1], false)
}

/// Whether these are the indexes of `items2`.
fn are_new_indexes(keys: &Index, expiries: &Index) -> bool
    ensures keys { IsTrue result
        → keys.now ≡ index_of (codes "sqlite_autoindex_items2_1") 4 items2_tree (1 ∷ []) true }
    ensures expiries { IsTrue result
        → expiries.now ≡ index_of (codes "items2_by_expiry") 5 items2_tree (9 ∷ 1 ∷ []) false }
{
    is_index(keys, "sqlite_autoindex_items2_1", 4, 3, &[1], true)
        && is_index(expiries, "items2_by_expiry", 5, 3, &[9, 1], false)
}

/// Whether these are the indexes of `items` and of `items2`.
fn are_known_indexes(all: &[Index]) -> bool
    ensures { IsTrue result → all.now ≡ indexes }
{
    let [old_keys, old_expiries, keys, expiries] = all else {
        return false;
    };
    are_old_indexes(old_keys, old_expiries) && are_new_indexes(keys, expiries)
}

/// Whether a database with this schema has the tables of SQL mode, made in their order, and
/// nothing else.
pub fn is_known(schema: &Schema) -> bool
    ensures { IsTrue result → schema.now ≡ known }
{
    let [old, new, last] = schema.tables.as_slice() else {
        return false;
    };
    is_items(old)
        && is_items2(new)
        && is_cookies(last)
        && are_known_indexes(schema.indexes.as_slice())
        && schema.views.as_slice().is_empty()
}
