//! Laws of replies.

ghost use Rattle.visible_spool.specs.Laws.{RepliesAreKept, RowsMayStand, RepliesStayReadable, RepliesAreSpared, TextsWithoutRows, VisibleTablesHaveRoom};
ghost use Rattle.visible_spool.specs.Areas.{AreasLieApart};
ghost use Rattle.visible_spool.specs.SpoolLaws.{StaysSpooling, StillPushed};
ghost use Rattle.visible_spool.specs.Searches.{SearchesAreShort};
ghost use Rattle.visible_spool.specs.Sparing.{NothingSparesHalves, ReadersSpareHalves, HalvesStaySpared, WritesSpareTheOther, SparedRepliesStay, SparedRowsStay, SparedHalvesStay, NoHalfIsHalf, UsedPagesAreSpared, BuffersStayFilled, BuffersStayGiven};

/// Rows stay where their pages stay.
pub fn replies_are_kept()
    ensures kept { RepliesAreKept }
{}

/// Each row of a reply may stand where it does.
pub fn rows_may_stand()
    ensures stand { RowsMayStand }
{}

/// A reply stays readable as long as the device has as many pages.
pub fn replies_stay_readable()
    ensures readable { RepliesStayReadable }
{}

/// Rows stay where no page between two of their half changed.
pub fn replies_are_spared()
    ensures spared { RepliesAreSpared }
{}

/// A text of which no row came has no reply for any table.
pub fn texts_without_rows()
    ensures none { TextsWithoutRows }
{}

/// What is at hand in the spool stays where its area and its buffer stay.
pub fn the_spool_is_spared()
    ensures stays { StaysSpooling }
    ensures pushed { StillPushed }
{}

/// A table that has a visible column has pages in each half of the spool.
pub fn visible_tables_have_room()
    ensures room { VisibleTablesHaveRoom }
{}

/// The areas of two tables in one half share no page.
pub fn areas_lie_apart()
    ensures apart { AreasLieApart }
{
    ghost_model::layout::sums_by_place();
}

/// A look-up has no more steps left than a table has rows, and one.
pub fn searches_are_short()
    ensures short { SearchesAreShort }
{}

/// What reads, and what writes the replies of a text of the other half, spares a half of the spool.
pub fn halves_are_spared()
    ensures nothing { NothingSparesHalves }
    ensures readers { ReadersSpareHalves }
    ensures both { HalvesStaySpared }
    ensures writes { WritesSpareTheOther }
{}

/// The replies of a half that is spared stay as they were.
pub fn spared_halves_stay()
    ensures readable { SparedRepliesStay }
    ensures rows { SparedRowsStay }
    ensures half { SparedHalvesStay }
{}

/// No replies lie in each half.
pub fn no_replies_are_a_half()
    ensures half { NoHalfIsHalf }
{
    texts_without_rows();
}

/// A job goes on with its buffers where its half is spared.
pub fn jobs_keep_their_buffers()
    ensures used { UsedPagesAreSpared }
    ensures filled { BuffersStayFilled }
    ensures given { BuffersStayGiven }
{}
