//! What holds of the pump's words alone, and of every session on a link.

ghost use Rattle.channel_pump.specs.Pages.{PagesKeep};
ghost use Rattle.channel_pump.specs.Entries.{MovesJoin};
ghost use Rattle.channel_pump.specs.Sessions.{ClosedIsFinished, SessionsBegin};

/// Any page keeps the part before the first move, and a page that keeps it does so after every move that takes nothing.
pub(crate) fn pages_keep_the_part()
    ensures { PagesKeep }
{}

/// A session before its first move, whatever its page holds.
pub fn sessions_begin()
    ensures begun { SessionsBegin }
{
    pages_keep_the_part();
}

/// A session of which nothing more is wanted went by a finished journal.
pub fn closed_is_finished()
    ensures finished { ClosedIsFinished }
{}

/// What is told of some moves and of those after them is told of all of them.
pub fn moves_join()
    ensures joined { MovesJoin }
{}
