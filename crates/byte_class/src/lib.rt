//! What the matchers of bytes share: sets of bytes, the character classes of bracket expressions, and a
//! counter of steps.
#![tactic(auto)]

pub mod byte_set;
pub mod class;
pub mod steps;

pub use byte_set::ByteSet;
pub use class::Class;
pub use steps::Steps;
