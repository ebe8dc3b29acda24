//! The regions of a transaction: one that is continued goes on in the next operation.

ghost use Rattle.std.specs.Prelude.{◌≡◌, ◌++◌, [], IfOk, map, false};
ghost use Rattle.xn_changes.specs.Transactions.{are_joined, regions_in};
ghost use Rattle.xn_transactions.specs.Joining.{grown_by, with_last};
ghost use Rattle.xn_transactions.specs.Viewed.{live_of};

use crate::live::LiveOp;
use crate::region::Region;
use std::alloc::{AllocError, Global};

/// Whether just those operations say that they were continued whose operation before is continued, and the last one isn't.
pub(crate) fn are_joined(parts: &[LiveOp<'_>]) -> bool
    ensures { result ≡ are_joined false (map live_of parts.now) }
{
    let mut continued = false;
    for part in parts {
        if part.was_continued() != continued {
            return false;
        }
        continued = part.continues();
    }
    !continued
}

/// The regions that the operations have.
pub(crate) fn regions_in<'a>(
    alloc: Global,
    parts: &[LiveOp<'a>],
) -> Result<Vec<Region<'a>>, AllocError>
    ensures { IfOk result (λ regions. regions.items ≡ regions_in (map live_of parts.now)) }
{
    let mut regions = Vec::new(alloc);
    let mut unfinished = None;
    for part in parts {
        let region = grown_by(alloc, unfinished, part)?;
        if part.continues() {
            unfinished = Some(region);
        } else {
            regions.push(region)?;
            unfinished = None;
        }
    }
    with_last(regions, unfinished)
}

/// A region that goes on in an operation, or the one that begins with it.
fn grown_by<'a>(
    alloc: Global,
    unfinished: Option<Region<'a>>,
    part: &LiveOp<'a>,
) -> Result<Region<'a>, AllocError>
    ensures { IfOk result (λ region. region ≡ grown_by (live_of part.now) unfinished.entry) }
{
    let bytes = part.op.bytes.as_slice();
    match unfinished {
        None => Ok(Region::new(part.place, bytes)),
        Some(region) => region.with(alloc, bytes),
    }
}

/// Regions, and behind them the last one where it did not end.
fn with_last<'a>(
    regions: Vec<Region<'a>>,
    unfinished: Option<Region<'a>>,
) -> Result<Vec<Region<'a>>, AllocError>
    ensures { IfOk result (λ all. all.items ≡ regions.entry.items ++ with_last unfinished.entry []) }
{
    let mut all = regions;
    if let Some(region) = unfinished {
        all.push(region)?;
    }
    Ok(all)
}
