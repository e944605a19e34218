// The report of a joint sheet: its lines, as bytes in a lent buffer.
#![tactic(auto)]

mod lists;
mod question;
mod record;
pub mod request;
pub mod start;

pub use lists::Lists;

// Enough bytes for the lines of any record.
pub const ROOM: usize = 131072;
