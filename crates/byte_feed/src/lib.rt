//! The bytes of a source in order, and what all formats of databases share: fields, items, endings, streams of paths.
#![tactic(auto)]

mod all;
mod damage;
mod feed;
mod field;
mod paths;
mod prefix;
mod stream;

pub use all::{AllFault, Bytes, read_all};
pub use damage::{Break, Damage, DamageCause, DbFault, Stop, fault_at};
pub use feed::{Feed, FeedFault, LIMIT};
pub use field::{behind_magic, number_16, number_32, number_64, one_byte};
pub use paths::PathStream;
pub use prefix::common_prefix;
pub use stream::{broken_at, match_bytes, read_byte, read_ended, read_text, skip_bytes};
