//! What every crate of the project speaks of: names, kinds, checksums, escapes and the numbers in disk structures. Its `specs/`
//! hold the definitions of the formats, which the contracts of all crates cite.
#![tactic(auto)]

mod attribute;
mod bytes;
mod checksum;
mod escaped_text;
mod escapes;
mod hash;
mod kind;
mod memory;
mod name;
mod numbers;
mod tables;

pub use attribute::{Attribute, Value};
pub use bytes::Bytes;
pub use checksum::{Crc, checksum_of, has_checksum, put_checksum};
pub use escaped_text::{EscapeFault, one_bad_place, unescape};
pub use escapes::escape;
pub use hash::{name_hash, parent_hash};
pub use kind::Kind;
pub use memory::Memory;
pub use name::{Name, NameFault, is_name};
pub use numbers::{
    little_u32_at, put_little_u32, put_u16, put_u32, put_u64, u8_at, u16_at, u32_at, u64_at,
};
