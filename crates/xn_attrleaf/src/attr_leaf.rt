use crate::attribute::{copy_of, hash_of, size_of};
use crate::fill::fill;
use crate::read::{attributes_of, ends_of, is_leaf};
use std::alloc::Global;
use xn_bytes::{Attribute, Memory};
use xn_datree::{Leaf, LeafFault};

/// A leaf of an attribute fork (`xfs_attr_leafblock`): its attributes by hash, with their values where those stand beside
/// the names.
#[derive(Clone, Copy, Debug, PartialEq, Eq)]
pub struct AttrLeaf;

impl Leaf for AttrLeaf {
    ghost use Rattle.xn_bytes.specs.Attributes.{attribute_hash};
    ghost use Rattle.xn_bytes.specs.AttributeLeaves.{AttrLeafHolds, attr_leaf_ends};
    ghost use Rattle.xn_attrleaf.specs.Filled.{IsLawfulAttribute};
    ghost use Rattle.xn_attrleaf.specs.Sizes.{leaf_size};
    ghost use Rattle.xn_attrleaf.specs.Laws.{one_list, all_lawful, all_sorted, few_bytes, between_ends, no_ends, some_size};
    ghost use Rattle.xn_attrleaf.specs.SameBody.{same_body};
    ghost use Rattle.xn_attrleaf.specs.SameAttribute.{same_attribute};

    type Entry = Attribute;

    const CAPACITY: u64 = 4016;

    ghost CAPACITY = { 4016 };

    ghost rule = { 25 };

    ghost Holds = { AttrLeafHolds };

    ghost ends = { attr_leaf_ends };

    ghost hash = { attribute_hash };

    ghost size = { leaf_size };

    ghost IsLawful = { IsLawfulAttribute };

    ghost holds_once = { one_list };

    ghost are_lawful = { all_lawful };

    ghost are_sorted = { all_sorted };

    ghost fit = { few_bytes };

    ghost within_ends = { between_ends };

    ghost none_without_ends = { no_ends };

    ghost some_size = { some_size };

    ghost equal_is_same = { same_attribute };

    ghost by_body = { same_body };

    fn entries(alloc: Global, block: &[u8]) -> Result<Vec<Attribute>, LeafFault> {
        if !is_leaf(block) {
            return Err(LeafFault::Bad { rule: 25 });
        }
        attributes_of(alloc, block).map_err(|_| LeafFault::Memory)
    }

    fn bounds(block: &[u8]) -> Option<(u32, u32)> {
        ends_of(block)
    }

    fn hash_of(entry: &Attribute) -> u32 {
        hash_of(entry)
    }

    fn size_of(entry: &Attribute) -> u64 {
        size_of(entry)
    }

    fn fill(block: &mut [u8], entries: &[Attribute]) {
        fill(block, entries);
    }

    fn copy(alloc: Global, entry: &Attribute) -> Result<Attribute, Memory> {
        copy_of(alloc, entry).map_err(|_| Memory)
    }
}
