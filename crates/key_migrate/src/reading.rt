//! All that is read, before anything is written.

ghost use Rattle.std.specs.Prelude.{◌≡◌, ℕ, List, Option, Err, IfOk, IfErr};
ghost use Rattle.key_inputs.specs.Outside.{IsTold, outside};
ghost use Rattle.key_words.specs.Views.{migrate_view};
ghost use Rattle.key_migrate.specs.Devices.{IsNoOther, KeepsNamed};
ghost use Rattle.key_migrate.specs.Preparing.{IsOfRows};
ghost use Rattle.key_migrate.specs.Results.{EndsMigrate, told_by};
ghost use Rattle.key_migrate.specs.declared.failures.MigrateFailure.TheVariants as failure;

use crate::failures::MigrateFailure;
use crate::items::with_columns;
use crate::opening::open_key;
use crate::parts::{Parts, read_parts};
use crate::preparing::prepare;
use csv_split::laws::widened_schemas_keep_databases;
use edge_traits::depot::Depot;
use edge_traits::flash::Flash;
use flash_build::laws::legal_parts_rejoin;
use ghost_model::catalogs::catalogs_have_one_spelling;
use ghost_model::meaning::{public_parts_go_with_catalogs, split_is_rejoined};
use key_load::Prepared;
use key_words::MigrateWords;
use std::alloc::Global;

/// Reads the old flash and the host's file, and prepares what is to be written of their rows.
pub(crate) fn read_old<D: Depot, F: Flash>(
    alloc: Global,
    words: &MigrateWords<'_>,
    depot: &mut D,
    flash: &mut F,
) -> Result<Prepared, MigrateFailure>
    ensures rows { IfOk result (λ prepared. IsOfRows F.told (migrate_view words.now) (D.contents depot.old) (F.state flash.old) prepared) }
    ensures ends { (written : Option (List ℕ)) (sink_faults : ℕ) → IfErr result (λ fault. EndsMigrate {T = Unit {0}} F.told (migrate_view words.now) (Err fault)
        (outside (D.contents depot.old) (D.faults depot.old) (D.append_faults depot.old) (F.state flash.old) written sink_faults)
        (outside (D.contents depot.new) (D.faults depot.new) (D.append_faults depot.new) (F.state flash.new) written sink_faults)) }
    ensures no_sink { result ≡ Err failure.Sink → ⊥ }
    ensures name { IsNoOther words.now.flash.now (F.state flash.new) }
    ensures kept { KeepsNamed F.told (F.state flash.old) (F.state flash.new) }
    ensures same { D.contents depot.new ≡ D.contents depot.old }
    ensures depot { IsTold (told_by result).depot (D.faults depot.old) (D.faults depot.new) }
    ensures appends { D.append_faults depot.new ≡ D.append_faults depot.old }
    ensures flash { IsTold (told_by result).flash (F.state flash.old).faults (F.state flash.new).faults }
{
    catalogs_have_one_spelling();
    split_is_rejoined();
    public_parts_go_with_catalogs();
    widened_schemas_keep_databases();
    let cat = match open_key(alloc, words.flash, flash) {
        Ok(cat) => cat,
        Err(failure) => return Err(failure),
    };
    legal_parts_rejoin(&cat);
    match read_parts(alloc, &cat, words, depot, flash) {
        Ok(parts) => {
            let Parts {
                fields,
                public,
                hidden,
            } = parts;
            let cat = with_columns(cat, &fields).renewed();
            prepare(alloc, cat, &public, hidden, words.blocks)
        }
        Err(failure) => Err(failure),
    }
}
