//! What is to be written, in memory.

ghost use Rattle.std.specs.Prelude.{IfOk, IfErr};
ghost use Rattle.key_words.specs.Blocks.{IsFew};
ghost use Rattle.key_migrate.specs.Preparing.{IsPrepared, TellsPreparing};

use crate::failures::MigrateFailure;
use csv_split::{Hidden, Public, visible_image};
use key_load::{LoadFailure, Prepared, blocks_of};
use std::alloc::Global;
use tree_schema::Catalog;

/// Prepares both parts of a catalog's rows, where the new flash is to be large enough for them.
pub(crate) fn prepare(
    alloc: Global,
    cat: Catalog,
    public: &Public,
    hidden: Hidden,
    asked: Option<u32>,
) -> Result<Prepared, MigrateFailure>
    requires within { IsFew asked }
    ensures prepared { IfOk result (λ prepared. IsPrepared cat public.now hidden asked prepared) }
    ensures told { IfErr result (λ fault. TellsPreparing cat asked fault) }
{
    let blocks = match blocks_of(&cat, asked) {
        Ok(blocks) => blocks,
        Err(LoadFailure::TooSmall { need, have }) => {
            return Err(MigrateFailure::TooSmall { need, have });
        }
        Err(_) => unreachable!(),
    };
    match visible_image(alloc, &cat, public) {
        Ok(image) => Ok(Prepared {
            cat,
            hidden,
            image,
            blocks,
        }),
        Err(_) => Err(MigrateFailure::NoMemory),
    }
}
