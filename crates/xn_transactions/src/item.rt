//! Any item, by its type.

ghost use Rattle.std.specs.Prelude.{◌≤◌, length, IfOk};
ghost use Rattle.xn_changes.specs.Decoded.{bytes_of};
ghost use Rattle.xn_changes.specs.Items.{take_item};
ghost use Rattle.xn_transactions.specs.Taking.{Takes};

use crate::buffer::take_buffer;
use crate::done::take_done;
use crate::fault::Refusal;
use crate::inode::take_inode;
use crate::intent::take_intent;
use crate::numbers::little_u16_at;
use crate::region::Region;
use crate::taken::Taken;
use std::alloc::Global;

const INODE: u16 = 0x123b;

const BUFFER: u16 = 0x123c;

const INTENT: u16 = 0x1246;

const DONE: u16 = 0x1247;

/// The item that begins with a region, of those that stand behind it.
pub(crate) fn take_item(alloc: Global, first: &[u8], rest: &[Region<'_>]) -> Result<Taken, Refusal>
    ensures item { Takes (take_item first.now (bytes_of rest.now)) result }
    ensures within { IfOk result (λ taken. taken.behind ≤ length rest.now) }
{
    if first.len() < 2 {
        return Err(Refusal::Malformed);
    }
    match little_u16_at(first, 0) {
        INODE => take_inode(alloc, first, rest),
        BUFFER => take_buffer(alloc, first, rest),
        INTENT => take_intent(alloc, first, rest),
        DONE => take_done(first),
        _ => Err(Refusal::Foreign),
    }
}
