//! What links in the key's own process promise.

ghost use Rattle.local_links.specs.ClinicCounts.{CountsOfTheClinic};
ghost use Rattle.local_links.specs.Links.{SessionsAreServed, SureSessionsAreServed};
ghost use Rattle.local_links.specs.Sessions.{ProperMovesNeverFail, SessionsAreLocal, ProperMovesAreShort, ProperJournalsAreWritten, LocalFilesAreProper};

use edge_traits::depot::Depot;
use edge_traits::link::Link;
use ghost_model::recorded::proper_files_are_found;
use session_laws::local::{next_moves_find_the_desk, served_journals_join};

/// The moves of a link to a host in the key's own process are served by that host, as long as no reading of its file fails.
pub fn sessions_are_served<D: Depot>()
    ensures served { SessionsAreServed D.contents D.faults D.sure }
{}

/// Over a depot that is sure of the host's file each of them is served, the depot stays sure, and its count of faults is
/// as before.
pub fn sure_sessions_are_served<D: Depot>()
    ensures served { SureSessionsAreServed D.contents D.faults D.sure }
{}

/// No move of a key on such a link fails, whatever the depot does.
pub fn proper_moves_never_fail<D: Depot>()
    ensures never { ProperMovesNeverFail D.contents D.faults D.sure }
{}

/// The moves of a key on such a link, over a depot that is sure of the host's file, are a session with a host in the
/// process.
pub fn sessions_are_local<D: Depot>()
    ensures is_local { SessionsAreLocal D.contents D.faults D.sure }
{
    served_journals_join();
    next_moves_find_the_desk();
}

/// A line of the journal has room for each move of a key, where the link gives no more bytes than it is asked for.
pub fn proper_moves_are_short()
    ensures short { ProperMovesAreShort }
{}

/// So the lines of a key's moves go into the journal's file, whatever link it goes by.
pub fn proper_journals_are_written<L: Link, D: Depot>()
    ensures written { ProperJournalsAreWritten L.went D.contents D.faults D.append_faults }
{}

/// The file of the lines of a finished session with a host in the process, dialled at the empty address, is that of a proper
/// journal of all its moves, and closed, if it is no longer than a journal's file may be.
pub fn local_files_are_proper()
    ensures proper { LocalFilesAreProper }
{
    served_journals_join();
    proper_files_are_found();
}

/// What is counted of a session over the clinic, and of one whose first frame could not be sent.
pub fn counts_of_the_clinic()
    ensures { CountsOfTheClinic }
{}
