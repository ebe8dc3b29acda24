//! Numbers and bytes put into a leaf, an entry, and a name with its value.

ghost use Rattle.std.specs.Prelude.{◌≡◌, ◌+◌, ◌-◌, ◌≤◌, ◌*◌, length, replicate};
ghost use Rattle.byteorder.specs.Endian.{big_bytes};
ghost use Rattle.xn_bytes.specs.Numbers.{overlaid};
ghost use Rattle.xn_bytes.specs.AttributeLeaves.{AttrEntry, local_size, remote_size};
ghost use Rattle.xn_attrleaf.specs.Filled.{IsLawfulAttribute};
ghost use Rattle.xn_attrleaf.specs.Putting.{PutsEntry, PutsLocal, PutsName, PutsRemote, PutsText, name_bytes};

use crate::entry::{EntryAt, place_of};
use xn_bytes::{Attribute, Value, put_u16, put_u32};

/// Puts a byte at a place.
fn put_u8(bytes: &mut [u8], at: usize, number: u8)
    requires { at + 1 ≤ length bytes.old }
    ensures value { bytes.new ≡ overlaid bytes.old at (big_bytes 1 number) }
    ensures length { length bytes.new ≡ length bytes.old }
{
    bytes[at] = number;
}

/// Puts bytes at a place.
fn put_bytes(bytes: &mut [u8], at: usize, piece: &[u8])
    requires { at + length piece.now ≤ length bytes.old }
    ensures value { bytes.new ≡ overlaid bytes.old at piece.now }
    ensures length { length bytes.new ≡ length bytes.old }
{
    bytes[at..at + piece.len()].copy_from_slice(piece);
}

/// Puts zeros between two places.
pub(crate) fn put_zeros(bytes: &mut [u8], from: usize, to: usize)
    requires order { from ≤ to }
    requires within { to ≤ length bytes.old }
    ensures value { bytes.new ≡ overlaid bytes.old from (replicate (to - from) 0) }
    ensures length { length bytes.new ≡ length bytes.old }
{
    bytes[from..to].fill(0);
}

/// Puts an entry at the place of an index, from 0.
pub(crate) fn put_entry(block: &mut [u8], index: usize, entry: EntryAt)
    requires size { length block.old ≡ 4096 }
    requires place { 80 + 8 * index + 8 ≤ 4096 }
    ensures { PutsEntry index block.old block.new entry }
{
    let at = place_of(index);
    put_u32(block, at, entry.hash);
    put_u16(block, at + 4, entry.place);
    put_u8(block, at + 6, entry.flags);
    put_u8(block, at + 7, 0);
}

/// Puts a name with its length in front.
fn put_text(block: &mut [u8], at: usize, name: &[u8])
    requires size { length block.old ≡ 4096 }
    requires name { length name.now ≤ 255 }
    requires place { at + 1 + length name.now ≤ 4096 }
    ensures { PutsText at block.old block.new name.now }
{
    put_u8(block, at, name.len() as u8);
    put_bytes(block, at + 1, name);
}

/// Puts a name and its value between two places.
fn put_local(block: &mut [u8], place: usize, end: usize, name: &[u8], value: &[u8])
    requires size { length block.old ≡ 4096 }
    requires name { length name.now ≤ 255 }
    requires value { length value.now ≤ 65535 }
    requires place { place + local_size (length name.now) (length value.now) ≡ end }
    requires end { end ≤ 4096 }
    ensures { PutsLocal place end block.old block.new name.now value.now }
{
    put_u16(block, place, value.len() as u16);
    put_text(block, place + 2, name);
    let behind = place + 3 + name.len();
    put_bytes(block, behind, value);
    put_zeros(block, behind + value.len(), end);
}

/// Puts a name between two places, and where its value stands: from which file block on, and how many bytes.
fn put_remote(block: &mut [u8], place: usize, end: usize, name: &[u8], first: u32, size: u32)
    requires size { length block.old ≡ 4096 }
    requires name { length name.now ≤ 255 }
    requires place { place + remote_size (length name.now) ≡ end }
    requires end { end ≤ 4096 }
    ensures { PutsRemote place end first size block.old block.new name.now }
{
    put_u32(block, place, first);
    put_u32(block, place + 4, size);
    put_text(block, place + 8, name);
    put_zeros(block, place + 9 + name.len(), end);
}

/// Puts name and value of an attribute between two places.
pub(crate) fn put_name(block: &mut [u8], place: usize, end: usize, attribute: &Attribute)
    requires size { length block.old ≡ 4096 }
    requires lawful { IsLawfulAttribute attribute.now }
    requires place { place + name_bytes attribute.now ≡ end }
    requires end { end ≤ 4096 }
    ensures { PutsName place end block.old block.new attribute.now }
{
    let name = attribute.name.as_slice();
    match &attribute.value {
        Value::Here(value) => put_local(block, place, end, name, value.as_slice()),
        Value::Remote {
            block: first,
            length,
        } => put_remote(block, place, end, name, *first, *length),
    }
}
