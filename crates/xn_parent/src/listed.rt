//! The parents among the attributes of an inode.

ghost use Rattle.std.specs.Prelude.{MatchResult, map};
ghost use Rattle.xn_bytes.specs.ParentRecords.{HasRecords, IsOrdered, parents_among, record_in};
ghost use Rattle.xn_inode.specs.Faults.{IsRule};
ghost use Rattle.xn_items.specs.Viewed.{record_of};

use crate::order::{in_order, rise};
use crate::record::{RULE, records_among};
use std::alloc::Global;
use xn_bytes::Attribute;
use xn_inode::ForkFault;
use xn_items::ParentRec;

/// The parents among attributes, in order. Rule 26 is broken where a record is not well formed, or stands twice.
pub(crate) fn parents_in(
    alloc: Global,
    attributes: &[Attribute],
) -> Result<Vec<ParentRec>, ForkFault>
    ensures { MatchResult result
        (λ parents. HasRecords attributes.now × IsOrdered (map record_in (parents_among attributes.now)) (map record_of parents.items))
        (IsRule 26 (HasRecords attributes.now)) }
{
    let parents = in_order(records_among(alloc, attributes)?);
    if rise(&parents) {
        Ok(parents)
    } else {
        Err(ForkFault::of_rule(RULE))
    }
}
