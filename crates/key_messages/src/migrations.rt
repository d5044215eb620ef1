//! What is told of a migration that did not end well.

use edge_traits::flash::BLOCK_PAGES;
use key_migrate::MigrateFailure;
use key_session::Damage;
use key_words::{MigrateWords, ShownWord};
use std::alloc::{AllocError, Global};
use text_places::names::{
    ColumnNames, Field, TableNames, column_name, column_named, table_name, table_named,
};
use tree_schema::Schema;

/// The line of `migrate`. The schema is that of the catalog on the old device, where one was read there.
pub(crate) fn migrate_line(
    alloc: Global,
    words: &MigrateWords<'_>,
    fault: &MigrateFailure,
    schema: Option<&Schema>,
) -> Result<String, AllocError> {
    let (flash, visible) = (words.flash, words.visible);
    let (to_flash, to_visible) = (words.to_flash, words.to_visible);
    match fault {
        MigrateFailure::NoMemory => String::from_str(alloc, "out of memory: free some"),
        MigrateFailure::NullName { item } => null_line(alloc, words, *item, schema),
        MigrateFailure::Depot => {
            format!(in alloc;
                "a file could not be read or written: see that {visible} is there, and that {to_visible} can be written"
            )
        }
        MigrateFailure::Flash => {
            format!(in alloc;
                "{flash} could not be read, or {to_flash} not be made or written: see that {flash} is there, and that the folder of {to_flash} is there and has room, and migrate again"
            )
        }
        MigrateFailure::Sink => {
            format!(in alloc;
                "the line could not be printed, but {to_flash} and {to_visible} are whole"
            )
        }
        MigrateFailure::Damaged { page, slot, found } => {
            let damage = Damage {
                page: *page,
                slot: *slot,
                found: *found,
            };
            format!(in alloc;
                "{flash} is damaged: {damage} (nothing was written); load the tables again under another name"
            )
        }
        _ => unlike_line(alloc, words, fault),
    }
}

/// The line of a device or a file that is none of those which are migrated, or would be too small.
fn unlike_line(
    alloc: Global,
    words: &MigrateWords<'_>,
    fault: &MigrateFailure,
) -> Result<String, AllocError> {
    let (flash, visible, to_flash) = (words.flash, words.visible, words.to_flash);
    match fault {
        MigrateFailure::OldTooSmall { need, have } => {
            format!(in alloc;
                "{flash} has {have} pages, but its tables end at page {need}: it was cut, or its catalog is damaged; give the whole file that key_program load made (nothing was written)"
            )
        }
        MigrateFailure::TooSmall { need, have } => {
            let blocks = need / BLOCK_PAGES;
            format!(in alloc;
                "{to_flash} would have {have} pages, but the tables need {need}: give --blocks {blocks} or more, or leave it out (nothing was written)"
            )
        }
        MigrateFailure::NotAKey => {
            format!(in alloc;
                "{flash} is no loaded flash: give the file that key_program load made (nothing was written)"
            )
        }
        _ => {
            format!(in alloc;
                "{visible} is not the host's file that was made with {flash}: give that file (nothing was written)"
            )
        }
    }
}

/// The line of an item of `--null`, counted from 1, that names no column which may be allowed NULL, or a column again.
fn null_line(
    alloc: Global,
    words: &MigrateWords<'_>,
    item: u32,
    schema: Option<&Schema>,
) -> Result<String, AllocError> {
    let items = words.null.as_slice();
    let place = (item as usize).saturating_sub(1);
    let why = match (schema, items.get(place)) {
        (Some(schema), Some(name)) => {
            let earlier = items.get(..place).unwrap_or(&[]);
            why_refused(alloc, schema, earlier, name)?
        }
        _ => String::from_str(alloc, "it names no column that may be allowed NULL")?,
    };
    format!(in alloc; "--null, item {item}: {why} (nothing was written)")
}

/// Why an item is refused behind these, and what to do.
fn why_refused(
    alloc: Global,
    schema: &Schema,
    earlier: &[&str],
    item: &str,
) -> Result<String, AllocError> {
    let (table, column) = item.split_once('.').unwrap_or(("", ""));
    if table.is_empty() || column.is_empty() {
        return no_column(alloc, schema, item);
    }
    let Some(place) = table_named(schema, table.as_bytes()) else {
        let (name, tables) = (ShownWord::of(table), TableNames(schema));
        return format!(in alloc; "there is no table {name}: the tables are {tables}");
    };
    match column_named(schema, place, column.as_bytes()) {
        Some(field) => why_never(alloc, schema, earlier, field),
        None => {
            let name = ShownWord::of(column);
            let of = table_name(schema, place);
            let names = ColumnNames {
                schema,
                table: place,
            };
            format!(in alloc; "{of} has no column {name}: {names}")
        }
    }
}

/// That an item with no name before its first point, or none behind it, names no column.
fn no_column(alloc: Global, schema: &Schema, item: &str) -> Result<String, AllocError> {
    if item.is_empty() {
        return String::from_str(
            alloc,
            "it is empty: write table.column, or leave its comma out",
        );
    }
    let (name, tables) = (ShownWord::of(item), TableNames(schema));
    format!(in alloc; "{name} names no column: write table.column; the tables are {tables}")
}

/// Why a column cannot be allowed NULL by an item behind these.
fn why_never(
    alloc: Global,
    schema: &Schema,
    earlier: &[&str],
    field: Field,
) -> Result<String, AllocError> {
    let (table, column) = (table_name(schema, field.table), column_name(schema, field));
    if field.column == 0 {
        return format!(in alloc;
            "{table}.{column} is the identifier, which is never NULL: leave it out"
        );
    }
    if schema.child(field.table, field.column).is_some() {
        return format!(in alloc;
            "{table}.{column} is a foreign key, which is never NULL: leave it out"
        );
    }
    match earlier.iter().position(|item| names(schema, item, field)) {
        Some(place) => {
            let before = place.saturating_add(1);
            format!(in alloc; "item {before} names {table}.{column} before: leave it out here")
        }
        None => format!(in alloc; "{table}.{column} may be NULL already: leave it out"),
    }
}

/// Whether an item names a column.
fn names(schema: &Schema, item: &str, field: Field) -> bool {
    let Some((table, column)) = item.split_once('.') else {
        return false;
    };
    table_named(schema, table.as_bytes()) == Some(field.table)
        && column_named(schema, field.table, column.as_bytes()) == Some(field)
}
