//! Laws of how long a channel can become.

ghost use Rattle.session_laws.specs.Bounds.{ChannelsAreBounded};
ghost use Rattle.session_laws.specs.RowByRow.{RowByRow};

/// Over a table of N rows no reply has more than N + 1 valid frames, there are never more WELCOME frames than bytes of the
/// catalog, and the key sends no more than one frame for each of these, and HELLO.
pub fn channels_are_bounded()
    ensures { ChannelsAreBounded }
{}

/// A session of the clinic in which a reply has as many frames as it can have.
pub fn clinic_row_by_row()
    ensures { RowByRow }
{}
