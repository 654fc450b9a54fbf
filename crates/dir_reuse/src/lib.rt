//! Reuse of an old database: its records, and the vouchers that answer from them.
#![tactic(auto)]

mod cursor;
mod kept;
mod laws;
mod map_voucher;
mod naming;
mod seeking;
mod stream_voucher;
#[cfg(test)]
mod tests;

pub use laws::{scan_has_records, scan_is_honest, scan_is_ordered, scan_is_read_back};
pub use map_voucher::MapVoucher;
pub use stream_voucher::StreamVoucher;
