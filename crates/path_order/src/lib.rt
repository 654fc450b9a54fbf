//! Paths as byte texts: a buffer for one, their parts, their order, and the moments of directories.
#![tactic(auto)]

mod kind;
mod laws;
mod name_list;
mod order;
mod parts;
mod path;
mod stamp;

pub use kind::Kind;
pub use laws::{
    components_of_joined, order_of_components, parent_and_base, path_of_components, sorted_list,
};
pub use name_list::NameList;
pub use order::compare_paths;
pub use parts::{base_start, is_name, is_normal, parent_len};
pub use path::{MAX_PATH, PathBuf, TooLong, join};
pub use stamp::{Stamp, is_recent, later};
