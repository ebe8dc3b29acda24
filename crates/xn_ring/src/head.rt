//! The head of a ring and its live records, over the outlines of all its intact records.

ghost use Rattle.std.specs.Prelude.{◌<◌, IfOk, MatchOption, Contains};
ghost use Rattle.xn_log.specs.declared.outline.Outline.{Outline};
ghost use Rattle.xn_ring.specs.Chains.{AreBySector, AreLiveAmong, IsHeadAmong, MayBeHead};
ghost use Rattle.xn_ring.specs.Labels.{AreLabels};

use crate::chain::chain_between;
use crate::label::{chain_labels, chain_start, newest_first};
use std::alloc::{AllocError, Global};
use xn_log::Outline;

/// The head of a ring, and its live records in order.
#[derive(Debug, Drop)]
pub(crate) struct Head {
    pub outline: Outline,
    pub live: Vec<Outline>,
}

/// The head and the live records among the outlines of all intact records of a ring, if it has a head.
pub(crate) fn find_head(
    alloc: Global,
    outlines: &[Outline],
    ring_sectors: u32,
) -> Result<Option<Head>, AllocError>
    requires some { 0 < ring_sectors }
    requires by_sector { AreBySector outlines.now }
    ensures { IfOk result (λ found. MatchOption found
        ((o : Outline) → ¬ IsHeadAmong ring_sectors outlines.now o)
        (λ head. IsHeadAmong ring_sectors outlines.now head.outline × AreLiveAmong ring_sectors outlines.now head.outline head.live.items)) }
{
    let newest = newest_first(alloc, outlines)?;
    let labels = chain_labels(alloc, outlines, &newest, ring_sectors)?;
    for outline in &newest {
        if let Some(live) = live_up_to(alloc, outlines, &labels, ring_sectors, outline)? {
            return Ok(Some(Head {
                outline: *outline,
                live,
            }));
        }
    }
    Ok(None)
}

/// The live records where the last one is the head, or `None` where it can't be the head.
fn live_up_to(
    alloc: Global,
    outlines: &[Outline],
    labels: &[usize],
    ring_sectors: u32,
    last: &Outline,
) -> Result<Option<Vec<Outline>>, AllocError>
    requires some { 0 < ring_sectors }
    requires by_sector { AreBySector outlines.now }
    requires labels { AreLabels ring_sectors outlines.now labels.now }
    requires listed { Contains outlines.now last.now }
    ensures { IfOk result (λ found. MatchOption found
        (¬ MayBeHead ring_sectors outlines.now last.now)
        (λ live. MayBeHead ring_sectors outlines.now last.now × AreLiveAmong ring_sectors outlines.now last.now live.items)) }
{
    if last.is_unmount {
        return Ok(Some(Vec::new(alloc)));
    }
    match chain_start(outlines, labels, last) {
        Some(first) => chain_between(alloc, outlines, ring_sectors, outlines[first], *last),
        None => Ok(None),
    }
}
