//! The law of a host over the visible image.

ghost use Rattle.host_exec.specs.Holdings.{ImagesAreHeld};

/// A host over the visible image of a public part replies as the host of that public part.
pub fn images_are_held()
    ensures { ImagesAreHeld }
{}
