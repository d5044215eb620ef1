//! The session.

ghost use Rattle.std.specs.Prelude.{◌≡◌, ◌≤◌, true, length, ℕ, Option, None};
ghost use Rattle.ghost_model.specs.core.Honest.{IsCatalogOf};
ghost use Rattle.ghost_model.specs.core.Texts.{texts_of};
ghost use Rattle.ghost_model.specs.core.Values.{Database};
ghost use Rattle.ghost_model.specs.forms.Catalog.{current_version};
ghost use Rattle.ghost_model.specs.forms.Layout as layout;
ghost use Rattle.session_laws.specs.Local.{holding_of};
ghost use Rattle.edge_traits.specs.Devices.{ChangesOnly};
ghost use Rattle.edge_traits.specs.Files.{Files};
ghost use Rattle.flash_layout.specs.Ranges.{Suffices};
ghost use Rattle.key_exec.specs.Reading.{KnowsBy};
ghost use Rattle.page_pool.specs.Pools.{IsIdle};
ghost use Rattle.key_inputs.specs.Outside.{HasCauses, outside};
ghost use Rattle.key_commands.specs.generate.Ends.{is_held};
ghost use Rattle.key_commands.specs.generate.Running.{RanCounted};
ghost use Rattle.key_commands.specs.local.Preparing.{IsHosted};
ghost use Rattle.key_commands.specs.local.Running.{IsSomeHosted};
ghost use Rattle.key_commands.specs.local.Sessions.{told_by_end};

use crate::generate::nowhere::Nowhere;
use crate::local::LocalRun;
use crate::local::laws::told_texts_are_given;
use crate::local::running::end_of;
use edge_traits::depot::Depot;
use edge_traits::flash::Flash;
use edge_traits::mem_depot::MemDepot;
use ghost_model::layout::catalogs_are_limited;
use ghost_model::session_laws::this_host_is_honest;
use key_exec::laws::{knowledge_is_enough, knowledge_stays};
use key_session::{Options, run_session};
use key_words::GenWords;
use local_links::counted::Counted;
use local_links::host_link::HostLink;
use local_links::laws::sessions_are_local;
use page_pool::PagePool;
use session_laws::local::local_sessions_are_served;
use tree_schema::Catalog;
use tree_schema::catalog_bytes::a_catalog_is_short;

/// A session that was held, and the counts of its moves, of the bytes that they sent and of those that they took.
#[derive(Clone, Copy, Drop)]
pub(crate) struct Held {
    pub(crate) session: LocalRun,
    pub(crate) moves: u64,
    pub(crate) sent: u64,
    pub(crate) taken: u64,
}

/// Runs the session of a script, which has at most 64 texts, over a link to a host in the process. Its lines go nowhere.
pub(crate) fn hold<F: Flash>(
    cat: &Catalog,
    script: &[u8],
    words: &GenWords<'_>,
    link: &mut HostLink<MemDepot>,
    pool: &mut PagePool,
    flash: &mut F,
) -> Held
    requires version { cat.now.version ≡ current_version }
    requires few { length (texts_of script.now) ≤ 64 }
    requires suffices { Suffices cat.now (F.state flash.old) }
    requires idle { IsIdle pool.old }
    requires hosted { IsSomeHosted ⟦<MemDepot as Depot>⟧.contents ⟦<MemDepot as Depot>⟧.sure cat.now link.old }
    ensures held { is_held result.session.end ≡ true }
    ensures ran { (database : Database) → IsCatalogOf cat.now database
        → IsHosted ⟦<MemDepot as Depot>⟧.contents ⟦<MemDepot as Depot>⟧.sure (holding_of cat.now database) link.old
        → (F.told ≡ true → KnowsBy words.now.plan F.told (F.state flash.old).page cat.now database)
        → (files : Option Files) → (faults appends : ℕ) → RanCounted words.now.plan F.told cat.now database (texts_of script.now) result
        (outside files faults appends (F.state flash.old) None 0) (outside files faults appends (F.state flash.new) None 0) }
    ensures pages { ChangesOnly (layout.static_end cat.now) (layout.scratch_end cat.now) (F.state flash.old) (F.state flash.new) }
    ensures causes { (files : Option Files) → (faults appends : ℕ) → HasCauses (told_by_end result.session.end)
        (outside files faults appends (F.state flash.old) None 0) (outside files faults appends (F.state flash.new) None 0) }
{
    a_catalog_is_short(cat);
    catalogs_are_limited();
    sessions_are_local::<MemDepot>();
    local_sessions_are_served();
    this_host_is_honest();
    told_texts_are_given();
    knowledge_is_enough();
    knowledge_stays();
    let options = Options {
        at: "",
        plan: words.plan,
        pace: words.pace.as_slice(),
    };
    let mut counted = Counted::new(link);
    let mut nowhere = Nowhere;
    let tally = run_session(
        cat,
        script,
        &options,
        pool,
        flash,
        &mut counted,
        &mut nowhere,
    );
    let counts = counted.counts();
    let session = LocalRun {
        end: end_of(tally.status, false),
        told: tally.told,
    };
    Held {
        session,
        moves: counts.moves,
        sent: counts.sent,
        taken: counts.taken,
    }
}
