//! The command.

ghost use Rattle.key_words.specs.Views.{migrate_view};
ghost use Rattle.key_inputs.specs.Outside.{outside};
ghost use Rattle.key_migrate.specs.Doing.{MigrateDid};

use crate::failures::MigrateFailure;
use crate::reading::read_old;
use crate::writing::write_new;
use edge_traits::depot::Depot;
use edge_traits::flash::Flash;
use edge_traits::sink::Sink;
use ghost_model::catalogs::catalogs_have_one_spelling;
use ghost_model::meaning::public_parts_go_with_catalogs;
use key_words::MigrateWords;
use std::alloc::Global;

/// Does the command `migrate`: reads the catalog of the old flash, which may be of either version, looks up the columns that the items
/// name, reads the host's file and then the hidden columns, and makes of the same rows a new flash and a new host's file, of the version
/// that is made and of the same generation, in which these columns may be NULL too. It prints `= migrated tables t rows r version 2`.
///
/// What is met first decides. The old flash and the old file are as they were, whatever is answered. Nothing is written before the new
/// flash is made, and as long as its page 0 is blank its pages spell no catalog. Where only the line could not be printed, both new
/// files stand. Of the old flash the public pages and the files of hidden columns are read; its indexes may be damaged.
pub fn migrate<D: Depot, F: Flash, O: Sink>(
    alloc: Global,
    words: &MigrateWords<'_>,
    depot: &mut D,
    flash: &mut F,
    out: &mut O,
) -> Result<(), MigrateFailure>
    ensures did { MigrateDid F.told result
        (outside (D.contents depot.old) (D.faults depot.old) (D.append_faults depot.old) (F.state flash.old) (O.written out.old) (O.faults out.old))
        (outside (D.contents depot.new) (D.faults depot.new) (D.append_faults depot.new) (F.state flash.new) (O.written out.new) (O.faults out.new)) (migrate_view words.now) }
{
    catalogs_have_one_spelling();
    public_parts_go_with_catalogs();
    match read_old(alloc, words, depot, flash) {
        Ok(prepared) => write_new(alloc, &prepared, words, depot, flash, out),
        Err(failure) => Err(failure),
    }
}
