//! What a session over a drawn clinic needs in memory.

ghost use Rattle.std.specs.Prelude.{IfOk};
ghost use Rattle.key_words.specs.Views.{gen_view};
ghost use Rattle.key_commands.specs.generate.Preparing.{IsReady};

use crate::generate::counting::{RowCounts, rows_of_texts};
use crate::generate::drawing::{Drawn, draw};
use crate::local::preparing::{Prepared, prepare};
use edge_traits::depot::Depot;
use edge_traits::mem_depot::MemDepot;
use generated_clinic::laws::texts_are_good;
use key_words::GenWords;
use std::alloc::{AllocError, Global};

/// A session that is prepared, its script, and the rows of the plain answer of each text.
#[derive(Drop)]
pub(crate) struct Ready {
    pub(crate) prepared: Prepared,
    pub(crate) script: Vec<u8>,
    pub(crate) meant: RowCounts,
}

/// Draws a clinic and a script, counts the rows of the plain answers while the tables are whole, and prepares the session.
pub(crate) fn make_ready(alloc: Global, words: &GenWords<'_>) -> Result<Ready, AllocError>
    ensures ready { IfOk result (IsReady ⟦<MemDepot as Depot>⟧.contents ⟦<MemDepot as Depot>⟧.sure (gen_view words.now)) }
{
    texts_are_good();
    let Drawn { clinic, script } = draw(alloc, words.seed, words.rows, words.texts)?;
    let meant = rows_of_texts(&clinic, &script);
    let prepared = prepare(alloc, clinic, words.buffers)?;
    Ok(Ready {
        prepared,
        script,
        meant,
    })
}
