//! A law of the order in which the asks of texts are awaited.

ghost use Rattle.key_session.specs.TextOrder.{TextsComeInOrder};

/// Where an ask is awaited, none of a later text was ended, and none of an earlier one will be awaited.
pub(crate) fn texts_come_in_order()
    ensures { TextsComeInOrder }
{}
