//! What stays of cursors where others use other pages and buffers.

ghost use Rattle.id_merge.specs.Spared.{CursorsStayGiven, CursorsStayReady, CursorsStayRight, MergeIsSmall, MergeStaysReady, OutsideStays, UnreadStays};

/// A law: where others write only pages of an area that no list lies in, and use other buffers, the lists may still be read, their
/// pages are right as before, their buffers have what reads gave, and as much is left to be read. Lists that were read on lie where
/// they lay. What a merge has left is never more than the pages of a device have room for.
pub fn cursors_are_spared()
    ensures cursors { CursorsStayReady }
    ensures merge { MergeStaysReady }
    ensures right { CursorsStayRight }
    ensures given { CursorsStayGiven }
    ensures unread { UnreadStays }
    ensures outside { OutsideStays }
    ensures small { MergeIsSmall }
{}
