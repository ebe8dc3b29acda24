//! Chains of records, over the outlines of all intact records of a ring, which rise by sector.

ghost use Rattle.std.specs.Prelude.{◌≡◌, ◌+◌, ◌%◌, ◌<◌, ◌≤◌, ◌∷◌, IfOk, MatchOption, Any, Contains, List, length, nat_lt};
ghost use Rattle.xn_log.specs.declared.outline.Outline.{Outline};
ghost use Rattle.xn_ring.specs.Chains.{AreBySector, IsBehind, IsChain, lsn_told};
ghost use Rattle.xn_ring.specs.Labels.{StandsAt};
ghost use Rattle.std.specs.List.Sorted.{IsPartitionPoint};

use std::alloc::{AllocError, Global};
use xn_log::Outline;

/// The sequence number of a record.
pub(crate) fn lsn(outline: &Outline) -> u64
    ensures { result ≡ lsn_told outline.now }
{
    (u64::from(outline.cycle) << 32) + u64::from(outline.sector)
}

/// The sector after a record of a ring.
pub(crate) fn sector_after(outline: &Outline, ring_sectors: u32) -> u32
    requires { 0 < ring_sectors }
    ensures { result ≡ (outline.now.sector + outline.now.sectors) % ring_sectors }
{
    let behind = u64::from(outline.sector) + u64::from(outline.sectors);
    (behind % u64::from(ring_sectors)) as u32
}

/// Where the outline of the record stands that begins at a sector, if one does.
pub(crate) fn place_of(outlines: &[Outline], sector: u64) -> Option<usize>
    requires { AreBySector outlines.now }
    ensures { MatchOption result
        (¬ Any (λ o. o.sector ≡ sector) outlines.now)
        (λ at. (o : Outline) × StandsAt outlines.now at o × (o.sector ≡ sector)) }
{
    let at = count_below(outlines, sector);
    let outline = outlines.get(at)?;
    if u64::from(outline.sector) == sector {
        Some(at)
    } else {
        None
    }
}

/// How many records begin below a sector.
fn count_below(outlines: &[Outline], sector: u64) -> usize
    requires { AreBySector outlines.now }
    ensures bound { result ≤ length outlines.now }
    ensures point { IsPartitionPoint (λ o. o.sector < sector) (λ o. sector ≤ o.sector) outlines.now result }
{
    outlines.partition_point(
        |outline: &Outline| -> bool
            ensures { result ≡ nat_lt outline.now.sector sector }
        { u64::from(outline.sector) < sector },
    )
}

/// Where the outline of the record stands that follows a record, if one does.
pub(crate) fn follower(outlines: &[Outline], ring_sectors: u32, outline: &Outline) -> Option<usize>
    requires some { 0 < ring_sectors }
    requires by_sector { AreBySector outlines.now }
    ensures { MatchOption result
        (¬ Any (IsBehind ring_sectors outline.now) outlines.now)
        (λ at. (o : Outline) × StandsAt outlines.now at o × IsBehind ring_sectors outline.now o) }
{
    let at = place_of(outlines, u64::from(sector_after(outline, ring_sectors)))?;
    if lsn(outline) < lsn(&outlines[at]) {
        Some(at)
    } else {
        None
    }
}

/// The chain of linked records from one of them to another, if one leads there.
pub(crate) fn chain_between(
    alloc: Global,
    outlines: &[Outline],
    ring_sectors: u32,
    first: Outline,
    last: Outline,
) -> Result<Option<Vec<Outline>>, AllocError>
    requires some { 0 < ring_sectors }
    requires by_sector { AreBySector outlines.now }
    requires has_first { Contains outlines.now first }
    requires has_last { Contains outlines.now last }
    ensures { IfOk result (λ found. MatchOption found
        ((rest : List Outline) → ¬ IsChain ring_sectors outlines.now first rest last)
        (λ chain. (rest : List Outline) × (chain.items ≡ first ∷ rest) × IsChain ring_sectors outlines.now first rest last)) }
{
    let mut chain = vec![in alloc; first]?;
    let mut here = first;
    while lsn(&here) < lsn(&last) {
        let Some(next) = follower(outlines, ring_sectors, &here) else {
            return Ok(None);
        };
        here = outlines[next];
        chain.push(here)?;
    }
    if here.sector == last.sector {
        Ok(Some(chain))
    } else {
        Ok(None)
    }
}
