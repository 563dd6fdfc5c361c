//! The lock under a monitor, called with its tokens.

mod meanwhile;
pub mod notes;
pub mod tokens;
