//! Mount tables, as proc(5) describes /proc/PID/mountinfo: which file system a path lies in, on which device, and
//! whether it is a bind mount.
#![tactic(auto)]

mod device;
mod escape;
mod fault;
mod line;
mod prefix;
mod read;
mod row;
mod table;
#[cfg(test)]
mod tests;

pub use fault::{MountCause, MountFault};
pub use read::read_mounts;
pub use table::Mounts;
