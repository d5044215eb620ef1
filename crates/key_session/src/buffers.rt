//! Where the page buffers of a session are.

/// Where the page buffers of a session are.
#[derive(Clone, Copy)]
pub enum Buffers {
    /// Not taken yet: no step was made.
    Untaken,
    /// With the session.
    Taken,
    /// Given back: nothing more is due.
    GivenBack,
}
