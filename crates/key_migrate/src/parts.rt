//! The items, the host's file and the hidden columns.

ghost use Rattle.std.specs.Prelude.{◌≡◌, ◌≤◌, IfOk, IfErr};
ghost use Rattle.ghost_model.specs.forms.Layout as layout;
ghost use Rattle.edge_traits.specs.Devices.{KeepsPages};
ghost use Rattle.key_inputs.specs.Outside.{IsTold};
ghost use Rattle.key_words.specs.Views.{migrate_view};
ghost use Rattle.key_migrate.specs.Reading.{AreParts, IsHiddenIn, IsPublicIn, TellsColumns, TellsFile, TellsParts};
ghost use Rattle.key_migrate.specs.Renaming.{as_failure};
ghost use Rattle.key_migrate.specs.Results.{told_by};

use crate::failures::MigrateFailure;
use crate::items::item_fields;
use arrayvec::ArrayVec;
use csv_split::{Hidden, Public};
use edge_traits::depot::Depot;
use edge_traits::flash::Flash;
use flash_build::{ReadFault, read_hidden};
use host_exec::{ReadPublicFault, read_public};
use key_words::{MAX_ITEMS, MigrateWords};
use page_pool::{MIN_BUFFERS, PagePool};
use spj_parse::Field;
use std::alloc::Global;
use tree_schema::Catalog;

/// What was read: the columns that are to be allowed NULL, and the two parts of the rows.
#[derive(Drop)]
pub(crate) struct Parts {
    pub(crate) fields: ArrayVec<Field, MAX_ITEMS>,
    pub(crate) public: Public,
    pub(crate) hidden: Hidden,
}

/// The public part of which the host's file is the image.
fn read_file<D: Depot>(
    alloc: Global,
    cat: &Catalog,
    depot: &mut D,
    name: &str,
) -> Result<Public, MigrateFailure>
    ensures public { IfOk result (λ public. IsPublicIn (D.contents depot.old) name.now cat.now public) }
    ensures told { IfErr result (λ fault. TellsFile (D.contents depot.old) name.now cat.now fault) }
    ensures depot { IsTold (told_by result).depot (D.faults depot.old) (D.faults depot.new) }
    ensures appends { D.append_faults depot.new ≡ D.append_faults depot.old }
    ensures same { D.contents depot.new ≡ D.contents depot.old }
{
    match read_public(alloc, cat, depot, name) {
        Ok(public) => Ok(public),
        Err(ReadPublicFault::NoMemory) => Err(MigrateFailure::NoMemory),
        Err(ReadPublicFault::Depot) => Err(MigrateFailure::Depot),
        Err(ReadPublicFault::BadVisibleFile) => Err(MigrateFailure::NotTheFile),
    }
}

/// What stands for a fault of the hidden columns.
fn failure_of(fault: ReadFault) -> MigrateFailure
    ensures failure { result ≡ as_failure fault }
{
    match fault {
        ReadFault::NoMemory => MigrateFailure::NoMemory,
        ReadFault::Flash => MigrateFailure::Flash,
        ReadFault::Damaged { page, slot, found } => MigrateFailure::Damaged { page, slot, found },
    }
}

/// The hidden part, by one page buffer.
fn read_columns<F: Flash>(
    alloc: Global,
    cat: &Catalog,
    flash: &mut F,
) -> Result<Hidden, MigrateFailure>
    requires there { layout.static_end cat.now ≤ (F.state flash.old).page_count }
    ensures hidden { IfOk result (λ hidden. IsHiddenIn F.told (F.state flash.old).page cat.now hidden) }
    ensures told { IfErr result (λ fault. TellsColumns F.told (F.state flash.old).calls (F.state flash.new) cat.now fault) }
    ensures kept { KeepsPages (F.state flash.old) (F.state flash.new) }
    ensures flash { IsTold (told_by result).flash (F.state flash.old).faults (F.state flash.new).faults }
{
    let Ok(mut pool) = PagePool::new(alloc, MIN_BUFFERS) else {
        return Err(MigrateFailure::NoMemory);
    };
    let Some(lease) = pool.lease() else {
        unreachable!()
    };
    match read_hidden(alloc, cat, flash, &mut pool, &lease) {
        Ok(hidden) => Ok(hidden),
        Err(fault) => Err(failure_of(fault)),
    }
}

/// Looks up the items, and then reads the host's file and then the hidden columns.
pub(crate) fn read_parts<D: Depot, F: Flash>(
    alloc: Global,
    cat: &Catalog,
    words: &MigrateWords<'_>,
    depot: &mut D,
    flash: &mut F,
) -> Result<Parts, MigrateFailure>
    requires there { layout.static_end cat.now ≤ (F.state flash.old).page_count }
    ensures parts { IfOk result (λ parts. AreParts F.told (migrate_view words.now) (D.contents depot.old) (F.state flash.old).page cat.now parts) }
    ensures told { IfErr result (λ fault. TellsParts F.told (migrate_view words.now) (D.contents depot.old) (F.state flash.old).calls (F.state flash.new) cat.now fault) }
    ensures kept { KeepsPages (F.state flash.old) (F.state flash.new) }
    ensures same { D.contents depot.new ≡ D.contents depot.old }
    ensures depot { IsTold (told_by result).depot (D.faults depot.old) (D.faults depot.new) }
    ensures appends { D.append_faults depot.new ≡ D.append_faults depot.old }
    ensures flash { IsTold (told_by result).flash (F.state flash.old).faults (F.state flash.new).faults }
{
    let fields = match item_fields(cat.schema(), &words.null) {
        Ok(fields) => fields,
        Err(item) => return Err(MigrateFailure::NullName { item }),
    };
    let public = match read_file(alloc, cat, depot, words.visible) {
        Ok(public) => public,
        Err(failure) => return Err(failure),
    };
    match read_columns(alloc, cat, flash) {
        Ok(hidden) => Ok(Parts {
            fields,
            public,
            hidden,
        }),
        Err(failure) => Err(failure),
    }
}
