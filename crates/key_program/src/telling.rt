//! What is printed on standard error.

use std::alloc::AllocError;
use std::fmt::Display;
use tree_schema::{Catalog, Schema};

/// The schema that texts were read with: that of the schema's file, or of the catalog on the device.
pub(crate) fn schema_of<'a>(
    read: &'a Option<Schema>,
    catalog: &'a Option<Catalog>,
) -> Option<&'a Schema> {
    match (read, catalog) {
        (Some(schema), _) => Some(schema),
        (None, Some(catalog)) => Some(catalog.schema()),
        (None, None) => None,
    }
}

/// Prints lines on standard error, if there are any.
pub(crate) fn tell(rt: &HostRuntime, lines: Result<String, AllocError>) {
    let _told = match lines {
        Ok(lines) if lines.is_empty() => Ok(()),
        Ok(lines) => eprintln!(rt; "{lines}"),
        Err(_) => eprintln!(rt; "out of memory"),
    };
}

/// Prints on standard error why a call failed, if one did.
pub(crate) fn tell_cause<T: Display + Drop>(rt: &HostRuntime, cause: Option<T>) {
    if let Some(cause) = cause {
        let _told = eprintln!(rt; "{cause}");
    }
}
