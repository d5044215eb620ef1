//! What works in steps, each of a few calls of the flash.

pub mod reduce;
pub mod slice;
pub mod work;

pub use slice::go_on;
pub use work::Work;
