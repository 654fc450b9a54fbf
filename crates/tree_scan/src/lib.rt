//! The complete scan: a database of all that a tree shows, written as the tree is walked in path order.
#![tactic(auto)]

mod directory;
mod laws;
mod pending;
mod progress;
mod put;
mod rules;
mod scanning;
#[cfg(test)]
mod tests;
mod voucher;
mod walk;

pub use laws::{pieces_make_the_scan, walk_is_in_path_order};
pub use rules::{Counts, Limits, Rules, ScanFault};
pub use scanning::scan;
pub use voucher::{NoVoucher, Voucher};
