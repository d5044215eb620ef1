//! The writing of both ends' new files, and of the line.

ghost use Rattle.std.specs.Prelude.{◌≡◌, ◌≤◌, ◌*◌, true, false, Err};
ghost use Rattle.ghost_model.specs.forms.Flash.{IsHidden};
ghost use Rattle.ghost_model.specs.forms.Layout as layout;
ghost use Rattle.edge_traits.specs.Files.{SameBut};
ghost use Rattle.key_inputs.specs.Outside.{IsTold, Outside, outside};
ghost use Rattle.key_load.specs.Results.{HasBlankPage0, IsOfMaking, IsUnsealed};
ghost use Rattle.key_words.specs.Views.{migrate_view};
ghost use Rattle.key_words.specs.Blocks.{most_blocks};
ghost use Rattle.key_migrate.specs.Devices.{IsNoOther, KeepsOthers};
ghost use Rattle.key_migrate.specs.Preparing.{IsOfRows};
ghost use Rattle.key_migrate.specs.Renaming.{IsAsMade};
ghost use Rattle.key_migrate.specs.Results.{EndsMigrate, leaves_page_0, makes_nothing, told_by, writes_nothing};

use crate::failures::MigrateFailure;
use crate::line::print_line;
use edge_traits::depot::Depot;
use edge_traits::flash::Flash;
use edge_traits::sink::Sink;
use key_load::{LoadFailure, Prepared, make_both};
use key_words::MigrateWords;
use std::alloc::Global;

/// What stands for a fault of the making.
fn failure_of(fault: LoadFailure) -> MigrateFailure
    requires making { IsOfMaking {T = Unit {0}} (Err fault) }
    ensures failure { IsAsMade fault result }
{
    match fault {
        LoadFailure::NoMemory => MigrateFailure::NoMemory,
        LoadFailure::Depot => MigrateFailure::Depot,
        LoadFailure::Flash => MigrateFailure::Flash,
        LoadFailure::Input(_) | LoadFailure::TooSmall { .. } | LoadFailure::Sink => unreachable!(),
    }
}

/// Makes the new flash and the new host's file, and prints the line.
pub(crate) fn write_new<D: Depot, F: Flash, O: Sink>(
    alloc: Global,
    prepared: &Prepared,
    words: &MigrateWords<'_>,
    depot: &mut D,
    flash: &mut F,
    out: &mut O,
) -> Result<(), MigrateFailure>
    requires part { IsHidden prepared.now.cat prepared.now.hidden }
    requires enough { layout.need prepared.now.cat ≤ 64 * prepared.now.blocks }
    requires most { prepared.now.blocks ≤ most_blocks }
    ensures ends { (before : Outside) → before.files ≡ D.contents depot.old → before.written ≡ O.written out.old
        → IsOfRows F.told (migrate_view words.now) before.files before.device prepared.now
        → EndsMigrate F.told (migrate_view words.now) result before
        (outside (D.contents depot.new) (D.faults depot.new) (D.append_faults depot.new) (F.state flash.new) (O.written out.new) (O.faults out.new)) }
    ensures made { makes_nothing result ≡ false }
    ensures name { IsNoOther words.now.to_flash.now (F.state flash.new) }
    ensures other_flashes { KeepsOthers F.told words.now.to_flash.now (F.state flash.old) (F.state flash.new) }
    ensures page_0 { leaves_page_0 result ≡ true → HasBlankPage0 (F.state flash.new) }
    ensures unsealed { IsUnsealed F.told (F.state flash.new) }
    ensures made_first { (F.state flash.new).page_count ≡ 0 → D.contents depot.new ≡ D.contents depot.old }
    ensures others { SameBut words.now.to_visible.now (D.contents depot.old) (D.contents depot.new) }
    ensures nothing_written { writes_nothing result ≡ true → O.written out.new ≡ O.written out.old }
    ensures sink { IsTold (told_by result).sink (O.faults out.old) (O.faults out.new) }
    ensures depot { IsTold (told_by result).depot (D.faults depot.old) (D.faults depot.new) }
    ensures appends { D.append_faults depot.new ≡ D.append_faults depot.old }
    ensures flash { IsTold (told_by result).flash (F.state flash.old).faults (F.state flash.new).faults }
{
    match make_both(
        alloc,
        prepared,
        words.to_flash,
        words.to_visible,
        depot,
        flash,
    ) {
        Ok(()) => match print_line(&prepared.cat, out) {
            Ok(()) => Ok(()),
            Err(_) => Err(MigrateFailure::Sink),
        },
        Err(fault) => Err(failure_of(fault)),
    }
}
