ghost use Rattle.std.specs.Prelude.{◌≡◌, ◌++◌, IfOk};
ghost use Rattle.xn_changes.specs.Decoded.{bytes_of};
ghost use Rattle.xn_changes.specs.Items.{are_there, region_at};

use std::alloc::{AllocError, Global};
use std::borrow::CowSlice;
use std::marker::Model;
use xn_bytes::Bytes;
use xn_changes::Place;

/// A region of a transaction, and where it begins. Its bytes are those of an operation as they stand, or joined from several.
#[derive(Debug, Drop)]
pub(crate) struct Region<'a> {
    place: Place,
    bytes: CowSlice<'a, u8>,
}

impl<'a> Model for Region<'a> {
    ghost use Rattle.xn_changes.specs.Transactions.{Region as PlacedBytes};
    ghost use Rattle.std.specs.Cow.{cow_slice_items};

    ghost Value = { PlacedBytes };

    ghost view = { λ r. record { place = r.place; bytes = cow_slice_items r.bytes } };
}

impl<'a> Region<'a> {
    /// A region of these bytes, which begins at a place. It takes no memory.
    pub(crate) fn new(place: Place, bytes: &'a [u8]) -> Region<'a>
        ensures place { result.place ≡ place }
        ensures bytes { result.bytes ≡ bytes.entry.now }
    {
        Region {
            place,
            bytes: CowSlice::Borrowed(bytes),
        }
    }

    /// The region with more bytes behind those that it has.
    pub(crate) fn with(self, alloc: Global, more: &[u8]) -> Result<Region<'a>, AllocError>
        ensures place { IfOk result (λ region. region.place ≡ self.entry.place) }
        ensures bytes { IfOk result (λ region. region.bytes ≡ self.entry.bytes ++ more.now) }
    {
        let mut bytes = self.bytes.into_owned(alloc)?;
        bytes.extend_from_slice(more)?;
        Ok(Region {
            place: self.place,
            bytes: CowSlice::Owned(bytes),
        })
    }

    /// Where the region begins.
    pub(crate) fn place(&self) -> Place
        ensures { result ≡ self.now.place }
    {
        self.place
    }

    pub(crate) fn bytes(&self) -> &[u8]
        ensures { result.now ≡ self.now.bytes }
    {
        self.bytes.as_slice()
    }
}

/// The bytes of a region for an item to keep.
pub(crate) fn bytes_at(alloc: Global, regions: &[Region<'_>], k: usize) -> Result<Bytes, AllocError>
    ensures { IfOk result (λ bytes. bytes ≡ region_at k (bytes_of regions.now)) }
{
    let bytes = Vec::from_slice(alloc, region_at(regions, k))?;
    Ok(Bytes::new(bytes))
}

/// Whether so many regions are there.
pub(crate) fn are_there(count: usize, regions: &[Region<'_>]) -> bool
    ensures { result ≡ are_there count (bytes_of regions.now) }
{
    count <= regions.len()
}

/// The bytes of the region at a place, none where there is no region.
pub(crate) fn region_at<'a>(regions: &'a [Region<'_>], k: usize) -> &'a [u8]
    ensures { result.now ≡ region_at k (bytes_of regions.now) }
{
    match regions.get(k) {
        Some(region) => region.bytes(),
        None => &[],
    }
}
