//! What a session is told beside its script.

use leakless_plan::Plan;

/// Where the host is, and how the key works.
#[derive(Clone, Copy)]
pub struct Options<'a> {
    /// The address of the host: empty where it stands in the same process.
    pub at: &'a str,
    /// The plan by which each text is answered.
    pub plan: Plan,
    /// How many slices of work are allowed behind each frame of rows, one number after another, and again from the first.
    pub pace: &'a [u16],
}
