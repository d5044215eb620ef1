//! The session.

ghost use Rattle.std.specs.Prelude.{◌≡◌, ◌≤◌, true, false, length};
ghost use Rattle.ghost_model.specs.core.Honest.{IsCatalogOf};
ghost use Rattle.ghost_model.specs.core.Texts.{texts_of};
ghost use Rattle.ghost_model.specs.core.Values.{Database};
ghost use Rattle.session_laws.specs.Local.{holding_of};
ghost use Rattle.ghost_model.specs.forms.Catalog.{current_version};
ghost use Rattle.ghost_model.specs.forms.Layout as layout;
ghost use Rattle.edge_traits.specs.Devices.{ChangesOnly};
ghost use Rattle.flash_layout.specs.Ranges.{Suffices};
ghost use Rattle.key_exec.specs.Reading.{KnowsBy};
ghost use Rattle.key_lines.specs.Told.{told_in};
ghost use Rattle.page_pool.specs.Pools.{IsIdle};
ghost use Rattle.key_inputs.specs.Outside.{HasCauses, Risen, Same, outside};
ghost use Rattle.local_links.specs.Keeping.{named};
ghost use Rattle.key_words.specs.Views.{local_view};
ghost use Rattle.key_session.specs.Running as session;
ghost use Rattle.key_commands.specs.local.Preparing.{IsHosted};
ghost use Rattle.key_commands.specs.local.Running.{RanOver, IsSomeHosted, is_of_local};
ghost use Rattle.key_exec.specs.declared.damage.Damage.{Damage};
ghost use Rattle.key_commands.specs.declared.local.ends.LocalEnd.TheVariants as ends;
ghost use Rattle.key_commands.specs.local.Sessions.{SameBesides, is_sink, told_by_end};

use crate::local::ends::{LocalEnd, LocalRun};
use crate::local::laws::told_texts_are_given;
use edge_traits::depot::Depot;
use edge_traits::flash::Flash;
use edge_traits::mem_depot::MemDepot;
use edge_traits::sink::Sink;
use ghost_model::layout::catalogs_are_limited;
use ghost_model::session_laws::this_host_is_honest;
use key_exec::laws::{knowledge_is_enough, knowledge_stays};
use key_session::{Options, SessionStatus, run_session};
use key_words::LocalWords;
use local_links::host_link::HostLink;
use local_links::journaled::Journaled;
use local_links::laws::{proper_journals_are_written, sessions_are_local};
use page_pool::PagePool;
use session_laws::local::local_sessions_are_served;
use tree_schema::Catalog;
use tree_schema::catalog_bytes::a_catalog_is_short;

/// How a session ended, by what it answers and by whether an append to the journal failed.
pub(crate) fn end_of(status: SessionStatus, append_failed: bool) -> LocalEnd
    requires of_local { is_of_local status ≡ true }
    ensures sink { is_sink result ≡ session.is_sink status }
    ensures depot { (told_by_end result).depot ≡ Risen → append_failed ≡ true }
    ensures no_depot { (told_by_end result).depot ≡ Same → append_failed ≡ false }
    ensures flash { (told_by_end result).flash ≡ Risen → session.blames_flash status ≡ true }
    ensures no_flash { (told_by_end result).flash ≡ Same → session.spares_flash status ≡ true }
    ensures whole { result ≡ LocalEnd.Ok → status ≡ SessionStatus.Ok }
    ensures damaged { (damage : Damage) → result ≡ ends.Damaged damage → status ≡ SessionStatus.Damaged damage }
{
    if let SessionStatus::Sink = status {
        return LocalEnd::Sink;
    }
    if append_failed {
        return LocalEnd::Depot;
    }
    match status {
        SessionStatus::Ok => LocalEnd::Ok,
        SessionStatus::Sink => LocalEnd::Sink,
        SessionStatus::Link => unreachable!(),
        SessionStatus::Protocol { .. } => unreachable!(),
        SessionStatus::Host { .. } => unreachable!(),
        SessionStatus::Flash => LocalEnd::Flash,
        SessionStatus::Damaged(damage) => LocalEnd::Damaged(damage),
    }
}

/// Runs the session of a script, which has at most 64 texts, over a link to a host in the process that keeps a journal.
fn hold<D: Depot, F: Flash, O: Sink>(
    cat: &Catalog,
    script: &[u8],
    words: &LocalWords<'_>,
    pool: &mut PagePool,
    flash: &mut F,
    link: &mut Journaled<'_, HostLink<MemDepot>, D>,
    out: &mut O,
) -> LocalRun
    requires version { cat.now.version ≡ current_version }
    requires few { length (texts_of script.now) ≤ 64 }
    requires suffices { Suffices cat.now (F.state flash.old) }
    requires idle { IsIdle pool.old }
    requires going { link.old.failed ≡ false }
    requires hosted { IsSomeHosted ⟦<MemDepot as Depot>⟧.contents ⟦<MemDepot as Depot>⟧.sure cat.now link.old.link.now }
    ensures same_link { link.new.link.ghost_name ≡ link.old.link.ghost_name }
    ensures same_depot { link.new.depot.ghost_name ≡ link.old.depot.ghost_name }
    ensures ran { (database : Database) → IsCatalogOf cat.now database
        → IsHosted ⟦<MemDepot as Depot>⟧.contents ⟦<MemDepot as Depot>⟧.sure (holding_of cat.now database) link.old.link.now
        → (F.told ≡ true → KnowsBy words.now.plan F.told (F.state flash.old).page cat.now database)
        → RanOver words.now.plan F.told cat.now database (texts_of script.now) (named link.old) result.end
        (outside (D.contents link.old.depot.now) (D.faults link.old.depot.now) (D.append_faults link.old.depot.now) (F.state flash.old) (O.written out.old) (O.faults out.old))
        (outside (D.contents link.new.depot.now) (D.faults link.new.depot.now) (D.append_faults link.new.depot.now) (F.state flash.new) (O.written out.new) (O.faults out.new)) (told_in result.told) }
    ensures pages { ChangesOnly (layout.static_end cat.now) (layout.scratch_end cat.now) (F.state flash.old) (F.state flash.new) }
    ensures others { SameBesides (named link.old) (D.contents link.old.depot.now) (D.contents link.new.depot.now) }
    ensures causes { HasCauses (told_by_end result.end)
        (outside (D.contents link.old.depot.now) (D.faults link.old.depot.now) (D.append_faults link.old.depot.now) (F.state flash.old) (O.written out.old) (O.faults out.old))
        (outside (D.contents link.new.depot.now) (D.faults link.new.depot.now) (D.append_faults link.new.depot.now) (F.state flash.new) (O.written out.new) (O.faults out.new)) }
{
    a_catalog_is_short(cat);
    catalogs_are_limited();
    sessions_are_local::<MemDepot>();
    proper_journals_are_written::<HostLink<MemDepot>, D>();
    local_sessions_are_served();
    this_host_is_honest();
    told_texts_are_given();
    knowledge_is_enough();
    knowledge_stays();
    let options = Options {
        at: "",
        plan: words.plan,
        pace: words.pace.as_slice(),
    };
    let tally = run_session(cat, script, &options, pool, flash, link, out);
    LocalRun {
        end: end_of(tally.status, link.failed()),
        told: tally.told,
    }
}

/// Runs that session, and keeps its journal where a file is named for it.
pub(crate) fn run<D: Depot, F: Flash, O: Sink>(
    cat: &Catalog,
    script: &[u8],
    words: &LocalWords<'_>,
    link: &mut HostLink<MemDepot>,
    pool: &mut PagePool,
    depot: &mut D,
    flash: &mut F,
    out: &mut O,
) -> LocalRun
    requires version { cat.now.version ≡ current_version }
    requires few { length (texts_of script.now) ≤ 64 }
    requires suffices { Suffices cat.now (F.state flash.old) }
    requires idle { IsIdle pool.old }
    requires hosted { IsSomeHosted ⟦<MemDepot as Depot>⟧.contents ⟦<MemDepot as Depot>⟧.sure cat.now link.old }
    ensures ran { (database : Database) → IsCatalogOf cat.now database
        → IsHosted ⟦<MemDepot as Depot>⟧.contents ⟦<MemDepot as Depot>⟧.sure (holding_of cat.now database) link.old
        → (F.told ≡ true → KnowsBy words.now.plan F.told (F.state flash.old).page cat.now database)
        → RanOver words.now.plan F.told cat.now database (texts_of script.now) (local_view words.now).journal result.end
        (outside (D.contents depot.old) (D.faults depot.old) (D.append_faults depot.old) (F.state flash.old) (O.written out.old) (O.faults out.old))
        (outside (D.contents depot.new) (D.faults depot.new) (D.append_faults depot.new) (F.state flash.new) (O.written out.new) (O.faults out.new)) (told_in result.told) }
    ensures pages { ChangesOnly (layout.static_end cat.now) (layout.scratch_end cat.now) (F.state flash.old) (F.state flash.new) }
    ensures others { SameBesides (local_view words.now).journal (D.contents depot.old) (D.contents depot.new) }
    ensures causes { HasCauses (told_by_end result.end)
        (outside (D.contents depot.old) (D.faults depot.old) (D.append_faults depot.old) (F.state flash.old) (O.written out.old) (O.faults out.old))
        (outside (D.contents depot.new) (D.faults depot.new) (D.append_faults depot.new) (F.state flash.new) (O.written out.new) (O.faults out.new)) }
{
    let mut journaled = Journaled::new(link, depot, words.journal);
    hold(cat, script, words, pool, flash, &mut journaled, out)
}
