//! Calls on the attributes of inode 144: what no answer of the program tells.

ghost use Rattle.xn_bytes.specs.Superblock.{IsInode};

use super::{Asked, check_rows};
use std::alloc::Global;
use std::test::Fail;
use xn_attr::Attr;
use xn_bytes::unescape;
use xn_inode::Store;

const FILE: u64 = 144;

/// Whether the inode has an attribute, by flags, name and value; whether one more has room, by flags, name and the length of
/// its value; and how the fork grows. The fork has 144 bytes.
const ATTRIBUTE_CALLS: &str = r"
# no fork but an empty short form; the record `a` under 128 with generation 7; extents format without extents
find 8 a \00\00\00\00\00\00\00\80\00\00\00\07 | block | 0 Ok(false)
find 8 a \00\00\00\00\00\00\00\80\00\00\00\07 | block inode:144 368=00140100_010c08'a'0000000000000080_00000007 | 0 Ok(true)
find 8 a \00\00\00\00\00\00\00\80\00\00\00\08 | block inode:144 368=00140100_010c08'a'0000000000000080_00000007 | 0 Ok(false)
find 0 a \00\00\00\00\00\00\00\80\00\00\00\07 | block inode:144 368=00140100_010c08'a'0000000000000080_00000007 | 0 Ok(false)
find 8 b \00\00\00\00\00\00\00\80\00\00\00\07 | block inode:144 368=00140100_010c08'a'0000000000000080_00000007 | 0 Ok(false)
find 8 a \00\00\00\00\00\00\00\80\00\00\00\07 | block inode:144 83=02 | 0 Ok(false)
find 8 a \00\00\00\00\00\00\00\80\00\00\00\07 | block inode:144 368=00150100_010c08'a'0000000000000080_00000007 | 0 Err(Broken { rule: 24, block: 0 })
# one leaf, and a node with three leaves; the value of `xy` stands elsewhere
find 8 kite \00\00\00\00\00\00\00\85\00\00\00\01 | block attributes:144:64:twenty | 0 Ok(true)
find 8 kite \00\00\00\00\00\00\00\85\00\00\00\01 | block attributes:144:8:twenty | 0 Ok(true)
find 8 kite \00\00\00\00\00\00\00\80\00\00\00\01 | block attributes:144:8:twenty | 0 Ok(false)
find 0 xy x | block attributes:144:8:twenty | 0 Ok(false)
find 8 kite \00\00\00\00\00\00\00\85\00\00\00\01 | block attributes:144:64:twenty hashed:24 8=0000 | 0 Err(Broken { rule: 25, block: 24 })

# a short form of 4 bytes, and one of 20, with 3 bytes, the name and the value more
room 8 a 136 | block | 0 Ok(true)
room 8 a 137 | block | 0 Ok(false)
room 8 a 120 | block inode:144 368=00140100_010c08'a'0000000000000080_00000007 | 0 Ok(true)
room 8 a 121 | block inode:144 368=00140100_010c08'a'0000000000000080_00000007 | 0 Ok(false)
room 8 a 136 | block inode:144 83=02 | 0 Ok(true)
room 8 a 137 | block inode:144 83=02 | 0 Ok(false)
# a longer fork, but a value of at most 255 bytes
room 8 a 255 | block inode:144 82=01 184=00040000 | 0 Ok(true)
room 8 a 256 | block inode:144 82=01 184=00040000 | 0 Ok(false)
# a leaf of 4,016 bytes with 21 entries and 416 bytes of names: 3,432 are left, 8 of them for an entry
room 8 a 3420 | block attributes:144:64:twenty | 0 Ok(true)
room 8 a 3421 | block attributes:144:64:twenty | 0 Ok(false)

grow | block | 0 Ok(Grow { blocks: 1, extents: 0, extent_room: 9, levels: 0 })
grow | block inode:144 83=02 | 0 Ok(Grow { blocks: 1, extents: 0, extent_room: 9, levels: 0 })
grow | block attributes:144:64:twenty | 0 Ok(Grow { blocks: 2, extents: 1, extent_room: 9, levels: 1 })
grow | block attributes:144:8:twenty | 0 Ok(Grow { blocks: 4, extents: 1, extent_room: 9, levels: 2 })
grow | block fails:3 | 0 Err(Read)
";

/// Makes a call of a row on the attributes of inode 144, and tells what it gives.
pub(super) fn call<S: Store>(alloc: Global, store: &mut S, words: &[String]) -> Result<String, Fail>
    requires { S.IsWhole store.old }
{
    if !store.geometry().is_inode(FILE) {
        return Err(Fail::from("no such inode"));
    }
    match words {
        [word] if word.as_str() == "grow" => {
            let grow = Attr::grow(alloc, store, FILE);
            Ok(format!(in alloc; "{grow:?}\n")?)
        }
        [word, flags, name, value] if word.as_str() == "find" => {
            let value = unescape(alloc, value.as_bytes())?;
            let found = Attr::find(
                alloc,
                store,
                FILE,
                flags_of(flags)?,
                name.as_bytes(),
                &value,
            );
            Ok(format!(in alloc; "{found:?}\n")?)
        }
        [word, flags, name, length] if word.as_str() == "room" => {
            let value = zeros(alloc, length)?;
            let room = Attr::room(
                alloc,
                store,
                FILE,
                flags_of(flags)?,
                name.as_bytes(),
                &value,
            );
            Ok(format!(in alloc; "{room:?}\n")?)
        }
        _ => Err(Fail::from("no such call")),
    }
}

fn flags_of(text: &str) -> Result<u8, Fail> {
    Ok(text.parse::<u8>().ok().ok_or("flags")?)
}

fn zeros(alloc: Global, length: &str) -> Result<Vec<u8>, Fail> {
    let length = length.parse::<u16>().ok().ok_or("a length")?;
    let mut zeros = Vec::new(alloc);
    zeros.resize(usize::from(length), 0)?;
    Ok(zeros)
}

#[test]
fn calls_on_attributes(rt: HostRuntime) {
    check_rows(&rt, Asked::Tree, "attributes", ATTRIBUTE_CALLS);
}
