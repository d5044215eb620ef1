//! Tests of what the product reads and of what it makes of it: values and their cells, schemas and catalogs, query texts
//! and scripts, CSV files and the two parts of their tables, a clinic that is drawn from a number. There is no code but tests.
#![tactic(auto)]

#[cfg(test)]
mod catalogs;
#[cfg(test)]
mod clinic;
#[cfg(test)]
mod csv_files;
#[cfg(test)]
mod drawn_clinic;
#[cfg(test)]
mod query_texts;
#[cfg(test)]
mod schema_texts;
#[cfg(test)]
mod told_files;
#[cfg(test)]
mod told_texts;
#[cfg(test)]
mod two_parts;
#[cfg(test)]
mod values;
