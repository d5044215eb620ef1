//! What goes on where others use other pages and buffers.

ghost use Rattle.spill_pass.specs.Spared.{StaysMerging, StillGathers};
ghost use Rattle.spill_pass.specs.Sparing.{GathersStays, MergingCallsStay, MergingIsSmall, MergingLeftStays, MergingStays, MergingStaysGiven, MergingStaysOutside, ReduceLeftStays, ReducingIsSmall, ReducingStays, SourceIsSpared};

/// A law: a step may still be made, and the list still has what it had, where nobody changed the pages and buffers in use.
pub fn spared()
    ensures merging { StaysMerging }
    ensures gathers { StillGathers }
{}

/// A law: a merge that is written goes on where others write only pages of an area outside of which its lists and its own area lie,
/// and use other buffers. As much is left to do, which is never more than the pages of a device have room for. A step leaves all
/// outside of that area.
pub fn merging_is_spared()
    ensures merging { MergingStays }
    ensures gathers { GathersStays }
    ensures given { MergingStaysGiven }
    ensures left { MergingLeftStays }
    ensures calls { MergingCallsStay }
    ensures outside { MergingStaysOutside }
    ensures small { MergingIsSmall }
{}

/// A law: so does a source that waits.
pub fn source_is_spared()
    ensures source { SourceIsSpared }
{}

/// A law: so do passes, and as much is left to do in them.
pub fn reducing_is_spared()
    ensures reducing { ReducingStays }
    ensures left { ReduceLeftStays }
    ensures small { ReducingIsSmall }
{}
