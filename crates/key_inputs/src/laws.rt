//! Why the files of tables can be judged one after another.

ghost use Rattle.key_inputs.specs.OpeningLaws.{OpeningsTellLoadFaults};

/// Where the files of a schema's tables are all there, what they are opened to is told by the first load fault.
pub fn openings_tell_load_faults()
    ensures { OpeningsTellLoadFaults }
{}
