//! Labels of outlines, the same along every chain: so where two differ, no chain leads from the one to the other.

ghost use Rattle.std.specs.Prelude.{◌≡◌, ◌<◌, ℕ, IfOk, MatchOption, Contains, length};
ghost use Rattle.xn_log.specs.declared.outline.Outline.{Outline};
ghost use Rattle.xn_ring.specs.Chains.{AreBySector, IsReached, lsn_told};
ghost use Rattle.xn_ring.specs.Labels.{AreLabels, AreNewestFirst, IsLabelled, StandsAt};

use crate::chain::{follower, lsn, place_of};
use std::alloc::{AllocError, Global};
use std::cmp::Reverse;
use xn_log::Outline;

/// The outlines in falling order of their sequence numbers.
pub(crate) fn newest_first(alloc: Global, outlines: &[Outline]) -> Result<Vec<Outline>, AllocError>
    ensures { IfOk result (λ newest. AreNewestFirst outlines.now newest.items) }
{
    let mut newest = outlines.to_vec(alloc)?;
    newest.sort_unstable_by_key(|outline| Reverse(lsn(outline)));
    Ok(newest)
}

/// A label for each outline, so that those of linked records are the same.
pub(crate) fn chain_labels(
    alloc: Global,
    outlines: &[Outline],
    newest: &[Outline],
    ring_sectors: u32,
) -> Result<Vec<usize>, AllocError>
    requires some { 0 < ring_sectors }
    requires by_sector { AreBySector outlines.now }
    requires order { AreNewestFirst outlines.now newest.now }
    ensures { IfOk result (λ labels. AreLabels ring_sectors outlines.now labels.items) }
{
    let mut labels = vec![in alloc; 0; outlines.len()]?;
    for outline in newest {
        label(outlines, outline, ring_sectors, &mut labels);
    }
    Ok(labels)
}

/// Labels an outline: as the record that follows it, or else by its own place.
fn label(outlines: &[Outline], outline: &Outline, ring_sectors: u32, labels: &mut [usize])
    requires some { 0 < ring_sectors }
    requires by_sector { AreBySector outlines.now }
    requires listed { Contains outlines.now outline.now }
    requires as_many { length labels.old ≡ length outlines.now }
    ensures { IsLabelled ring_sectors outlines.now outline.now labels.old labels.new }
{
    if let Some(at) = place_of(outlines, u64::from(outline.sector)) {
        labels[at] = match follower(outlines, ring_sectors, outline) {
            Some(next) => labels[next],
            None => at,
        };
    }
}

/// Where the record stands from which a chain may lead to the last one: that whose sequence number is its tail.
pub(crate) fn chain_start(outlines: &[Outline], labels: &[usize], last: &Outline) -> Option<usize>
    requires by_sector { AreBySector outlines.now }
    requires listed { Contains outlines.now last.now }
    requires as_many { length labels.now ≡ length outlines.now }
    ensures { MatchOption result
        ((ring_sectors : ℕ) → AreLabels ring_sectors outlines.now labels.now → ¬ IsReached ring_sectors outlines.now last.now)
        (λ at. (first : Outline) × StandsAt outlines.now at first × (lsn_told first ≡ last.now.tail)) }
{
    let first = place_of(outlines, last.tail % (1 << 32))?;
    let end = place_of(outlines, u64::from(last.sector))?;
    if lsn(&outlines[first]) == last.tail && labels[first] == labels[end] {
        Some(first)
    } else {
        None
    }
}
