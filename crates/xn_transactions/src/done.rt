//! The end of an intent (`struct xfs_attrd_log_format`).

ghost use Rattle.std.specs.Prelude.{ℕ, List};
ghost use Rattle.xn_changes.specs.Items.{take_done};
ghost use Rattle.xn_transactions.specs.Taking.{Takes};

use crate::fault::Refusal;
use crate::numbers::{little_u16_at, little_u64_at};
use crate::taken::Taken;
use xn_changes::Item;

/// The end of an intent in its one region.
pub(crate) fn take_done(first: &[u8]) -> Result<Taken, Refusal>
    ensures { (rest : List (List ℕ)) → Takes (take_done first.now rest) result }
{
    if first.len() != 16 || little_u16_at(first, 2) != 1 {
        return Err(Refusal::Malformed);
    }
    let item = Item::Done {
        id: little_u64_at(first, 8),
    };
    Ok(Taken { item, behind: 0 })
}
