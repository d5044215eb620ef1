//! What is to be written, in memory.

ghost use Rattle.std.specs.Prelude.{◌≡◌, ◌≤◌, ◌*◌, Some, MatchResult, IfOk, IfErr};
ghost use Rattle.ghost_model.specs.core.Database.{IsDatabase};
ghost use Rattle.ghost_model.specs.forms.Layout as layout;
ghost use Rattle.ghost_model.specs.core.Split as parts;
ghost use Rattle.ghost_model.specs.forms.Flash.{IsHidden};
ghost use Rattle.key_words.specs.Blocks.{most_blocks, IsFew};
ghost use Rattle.key_load.specs.Loadings.{catalog_for, blocks_for};
ghost use Rattle.key_load.specs.Results.{TellsPreparing, TellsBlocks};

use crate::failures::LoadFailure;
use csv_split::{Hidden, Tables, split, visible_image};
use edge_traits::flash::BLOCK_PAGES;
use flash_build::catalog_of;
use flash_layout::need;
use key_inputs::Input;
use std::alloc::Global;
use tree_schema::Catalog;

/// What is to be written: the catalog and the hidden part to a flash of so many blocks, and the bytes of the host's file.
#[derive(Drop)]
pub struct Prepared {
    /// The catalog.
    pub cat: Catalog,

    /// The hidden part, which is one of the catalog.
    pub hidden: Hidden,

    /// The bytes of the host's file.
    pub image: Vec<u8>,

    /// How many blocks the flash is to have.
    pub blocks: u32,
}

/// The number of blocks of a flash for a catalog: as many as are asked for, else as many as are needed. The one error is `TooSmall`, with
/// the pages that are needed and those that the flash would have.
pub fn blocks_of(cat: &Catalog, asked: Option<u32>) -> Result<u32, LoadFailure>
    requires within { IsFew asked }
    ensures blocks { IfOk result (λ blocks. blocks ≡ blocks_for cat.now asked) }
    ensures enough { IfOk result (λ blocks. layout.need cat.now ≤ 64 * blocks) }
    ensures most { IfOk result (λ blocks. blocks ≤ most_blocks) }
    ensures too_small { IfErr result (λ fault. TellsBlocks cat.now asked fault) }
{
    let need = need(cat);
    let blocks = asked.unwrap_or(need / BLOCK_PAGES);
    let have = BLOCK_PAGES * blocks;
    if have < need {
        return Err(LoadFailure::TooSmall { need, have });
    }
    Ok(blocks)
}

/// Splits tables into what is to be written where.
pub(crate) fn prepare(
    alloc: Global,
    input: Input,
    asked: Option<u32>,
) -> Result<Prepared, LoadFailure>
    requires database { IsDatabase input.schema input.tables }
    requires within { IsFew asked }
    ensures cat { IfOk result (λ prepared. prepared.cat ≡ catalog_for input.schema input.tables) }
    ensures hidden { IfOk result (λ prepared. prepared.hidden ≡ parts.hidden_of input.schema input.tables) }
    ensures image { IfOk result (λ prepared. prepared.image.items ≡ parts.image (catalog_for input.schema input.tables) (parts.public_of input.schema input.tables)) }
    ensures part { IfOk result (λ prepared. IsHidden prepared.cat prepared.hidden) }
    ensures blocks { IfOk result (λ prepared. prepared.blocks ≡ blocks_for (catalog_for input.schema input.tables) asked) }
    ensures enough { IfOk result (λ prepared. layout.need prepared.cat ≤ 64 * prepared.blocks) }
    ensures most { IfOk result (λ prepared. prepared.blocks ≤ most_blocks) }
    ensures told { IfErr result (λ fault. TellsPreparing (catalog_for input.schema input.tables) asked fault) }
{
    let Input { schema, tables } = input;
    let cat = catalog_of(schema, &tables);
    let blocks = blocks_of(&cat, asked)?;
    let Ok((public, hidden)) = split(alloc, cat.schema(), tables) else {
        return Err(LoadFailure::NoMemory);
    };
    let Ok(image) = visible_image(alloc, &cat, &public) else {
        return Err(LoadFailure::NoMemory);
    };
    Ok(Prepared {
        cat,
        hidden,
        image,
        blocks,
    })
}
