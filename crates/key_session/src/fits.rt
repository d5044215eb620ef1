//! A law of the ask that is awaited.

ghost use Rattle.key_session.specs.Fits.{RepliesFit};

/// The rows of the ask that is awaited have their place, no other ask of its text is for its table, and the rows that came are
/// whole.
pub(crate) fn replies_fit()
    ensures { RepliesFit }
{
    ghost_model::layout::files_lie_in_order();
    visible_spool::laws::visible_tables_have_room();
}
