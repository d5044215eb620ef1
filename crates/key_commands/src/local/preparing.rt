//! What a session needs in memory: the parts of the tables, the host and its link, and the page buffers.

ghost use Rattle.std.specs.Prelude.{◌≡◌, Some, IfOk, length};
ghost use Rattle.ghost_model.specs.core.Channel as channel;
ghost use Rattle.ghost_model.specs.core.Database.{IsDatabase};
ghost use Rattle.ghost_model.specs.core.Host.{host_of};
ghost use Rattle.ghost_model.specs.core.Honest.{IsCatalogOf};
ghost use Rattle.ghost_model.specs.core.Split as divided;
ghost use Rattle.session_laws.specs.Local.{holding_of};
ghost use Rattle.edge_traits.specs.Files.{file_of};
ghost use Rattle.ghost_model.specs.forms.Catalog.{current_version};
ghost use Rattle.ghost_model.specs.forms.Flash.{IsHidden};
ghost use Rattle.page_pool.specs.Pools.{IsIdle};
ghost use Rattle.key_words.specs.Blocks.{AreBuffers};
ghost use Rattle.key_commands.specs.local.Sessions.{catalog_for};
ghost use Rattle.key_commands.specs.local.Preparing.{IsSomeImage, IsHosted};

use csv_split::{Hidden, split, visible_image};
use edge_traits::depot::Depot;
use edge_traits::mem_depot::{MemDepot, Room};
use flash_build::catalog_of;
use ghost_model::catalogs::catalogs_have_one_spelling;
use ghost_model::meaning::public_parts_go_with_catalogs;
use host_exec::laws::images_are_held;
use host_exec::{BeginFault, Host};
use key_inputs::Input;
use local_links::host_link::HostLink;
use page_pool::PagePool;
use std::alloc::{AllocError, Global};
use tree_schema::Catalog;
use tree_schema::catalog_bytes::a_catalog_is_short;

/// The name of the host's file in its depot.
const VISIBLE: &str = "visible";

/// The catalog and the hidden part of a database, and the bytes of the host's file.
#[derive(Drop)]
struct Parts {
    cat: Catalog,
    hidden: Hidden,
    image: Vec<u8>,
}

/// The catalog and the hidden part of a database, the link to a host that holds its visible part, and the page buffers, of
/// which none is out.
#[derive(Drop)]
pub(crate) struct Prepared {
    pub(crate) cat: Catalog,
    pub(crate) hidden: Hidden,
    pub(crate) link: HostLink<MemDepot>,
    pub(crate) pool: PagePool,
}

/// Splits tables into the two parts.
fn parts_of(alloc: Global, input: Input) -> Result<Parts, AllocError>
    requires database { IsDatabase input.schema input.tables }
    ensures cat { IfOk result (λ made. made.cat ≡ catalog_for input.schema input.tables) }
    ensures current { IfOk result (λ made. made.cat.version ≡ current_version) }
    ensures stored { IfOk result (λ made. IsCatalogOf made.cat input.tables) }
    ensures hidden { IfOk result (λ made. made.hidden ≡ divided.hidden_of input.schema input.tables) }
    ensures part { IfOk result (λ made. IsHidden made.cat made.hidden) }
    ensures image { IfOk result (λ made. divided.SpellsImage made.cat (divided.public_of made.cat.schema input.tables) made.image.items) }
{
    let Input { schema, tables } = input;
    let cat = catalog_of(schema, &tables);
    a_catalog_is_short(&cat);
    public_parts_go_with_catalogs();
    let (public, hidden) = split(alloc, cat.schema(), tables)?;
    let image = visible_image(alloc, &cat, &public)?;
    Ok(Parts { cat, hidden, image })
}

/// A depot in memory that has one file of this name.
#[tactic(auto, using(crate::proofs::local_lemmas::Begun::has_just_room))]
fn depot_with(alloc: Global, name: &str, image: Vec<u8>) -> Result<MemDepot, AllocError>
    ensures file { IfOk result (λ depot. file_of (⟦<MemDepot as Depot>⟧.contents depot) name.now ≡ Some image.items) }
    ensures is_sure { IfOk result (λ depot. ⟦<MemDepot as Depot>⟧.sure depot name.now) }
{
    let room = Room {
        files: 1,
        name_bytes: name.len(),
        file_bytes: image.len(),
    };
    let mut depot = MemDepot::new(alloc, room, &[])?;
    if !depot.put(name, &image) {
        unreachable!()
    }
    Ok(depot)
}

/// A link to a host over the bytes of its file.
fn link_over(alloc: Global, image: Vec<u8>) -> Result<HostLink<MemDepot>, AllocError>
    requires image { IsSomeImage image.items }
    ensures hosted { IfOk result (λ link. (catalog : channel.Catalog) (public : divided.Public) → divided.SpellsImage catalog public image.items
        → IsHosted ⟦<MemDepot as Depot>⟧.contents ⟦<MemDepot as Depot>⟧.sure (host_of catalog public) link) }
{
    catalogs_have_one_spelling();
    images_are_held();
    let mut depot = depot_with(alloc, VISIBLE, image)?;
    match Host::begin(alloc, &mut depot, VISIBLE) {
        Ok(host) => Ok(HostLink::new(host, depot)),
        Err(BeginFault::NoMemory) => Err(AllocError),
        Err(BeginFault::Depot) => unreachable!(),
        Err(BeginFault::BadVisibleFile) => unreachable!(),
    }
}

/// Prepares a session over tables that were read, with so many page buffers, from 8 to 64.
pub(crate) fn prepare(alloc: Global, input: Input, buffers: u32) -> Result<Prepared, AllocError>
    requires database { IsDatabase input.schema input.tables }
    requires buffers { AreBuffers buffers }
    ensures cat { IfOk result (λ prepared. prepared.cat ≡ catalog_for input.schema input.tables) }
    ensures stored { IfOk result (λ prepared. IsCatalogOf prepared.cat input.tables) }
    ensures hidden { IfOk result (λ prepared. prepared.hidden ≡ divided.hidden_of input.schema input.tables) }
    ensures part { IfOk result (λ prepared. IsHidden prepared.cat prepared.hidden) }
    ensures hosted { IfOk result (λ prepared. IsHosted ⟦<MemDepot as Depot>⟧.contents ⟦<MemDepot as Depot>⟧.sure (holding_of prepared.cat input.tables) prepared.link) }
    ensures idle { IfOk result (λ prepared. IsIdle prepared.pool) }
    ensures size { IfOk result (λ prepared. length prepared.pool.pages ≡ buffers) }
{
    let Parts { cat, hidden, image } = parts_of(alloc, input)?;
    let link = link_over(alloc, image)?;
    let pool = PagePool::new(alloc, buffers)?;
    Ok(Prepared {
        cat,
        hidden,
        link,
        pool,
    })
}
