//! A step of a sample.
use loc_outside::MemTree;
use path_order::Stamp;

/// A tree, and the moment at which it is updated.
#[derive(Drop)]
pub struct SampleStep {
    pub tree: MemTree,
    pub now: Stamp,
}
