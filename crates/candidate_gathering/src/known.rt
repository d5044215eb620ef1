//! What is known of the pages of a device for the plans by indexes, in laws alone.
//!
//! The words are in `specs/known/Known.antt`: `KnowsIndexes`, that right pages hold the indexes of a database, and the pages have them but
//! for slots that are out of range by themselves, `IsListFile` and `IsReadCrossing`, which files are read for lists and for a
//! query by some form, and `IsBadSlotIn`, a damaged slot of one of them, which pages that hold all files do not have. `specs/known/Reading.antt`
//! has `IsReadByForms`, which files a plan reads; `specs/known/Found.antt`, where a slot lies that is blamed; `specs/known/May.antt`, of which
//! runs a slot may be blamed.

pub mod examples;
pub mod laws;
