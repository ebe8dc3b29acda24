//! Attributes in short form: rule 24.

ghost use Rattle.std.specs.Prelude.{◌≡◌, ◌+◌, ◌≤◌, ◌↔◌, List, Contains, IfErr, IfOk, IsTrue, MatchResult, length};
ghost use Rattle.xn_bytes.specs.declared.attribute.Attribute.{Attribute};
ghost use Rattle.xn_bytes.specs.Inode.{HasForks, CoreHolds, attr_fork_of};
ghost use Rattle.xn_bytes.specs.ShortAttributes.{ShortAttributesHold};
ghost use Rattle.xn_bytes.specs.AttributeRoom.{short_size_of};
ghost use Rattle.xn_attrleaf.specs.ShortViewed.{attribute_of};
ghost use Rattle.xn_attr.specs.Faults.{IsShortFault};

use std::alloc::Global;
use xn_attrleaf::{ShortAttr, ShortAttrs, list as list_of};
use xn_bytes::Attribute;
use xn_inode::{Core, ForkFault};

/// The greatest length of a value in short form.
const MOST_VALUE: usize = 255;

fn short_of<'a>(core: &Core, inode: &'a [u8]) -> Result<ShortAttrs<'a>, ForkFault>
    requires core { CoreHolds inode.now core.now }
    requires forks { HasForks inode.now }
    ensures { MatchResult result (λ short. ShortAttributesHold (attr_fork_of inode.now) short) (IsShortFault inode.now) }
{
    match ShortAttrs::read(core.attr_fork(inode)) {
        Ok(short) => Ok(short),
        Err(_) => Err(ForkFault::of_rule(24)),
    }
}

/// The attributes in order.
pub(crate) fn list(alloc: Global, core: &Core, inode: &[u8]) -> Result<Vec<Attribute>, ForkFault>
    requires core { CoreHolds inode.now core.now }
    requires forks { HasForks inode.now }
    ensures holds { IfOk result (λ attributes. ShortAttributesHold (attr_fork_of inode.now) attributes.items) }
    ensures fault { IfErr result (IsShortFault inode.now) }
{
    let short = short_of(core, inode)?;
    Ok(list_of(alloc, &short)?)
}

/// Whether this attribute is among them.
pub(crate) fn has(core: &Core, inode: &[u8], wanted: &ShortAttr<'_>) -> Result<bool, ForkFault>
    requires core { CoreHolds inode.now core.now }
    requires forks { HasForks inode.now }
    ensures found { IfOk result (λ found. (attributes : List Attribute) × ShortAttributesHold (attr_fork_of inode.now) attributes × (IsTrue found ↔ Contains attributes (attribute_of wanted.now))) }
    ensures fault { IfErr result (IsShortFault inode.now) }
{
    let short = short_of(core, inode)?;
    for attribute in short.entries() {
        if is_same(&attribute, wanted) {
            return Ok(true);
        }
    }
    Ok(false)
}

fn is_same(attribute: &ShortAttr<'_>, wanted: &ShortAttr<'_>) -> bool
    ensures { IsTrue result ↔ (attribute_of attribute.now ≡ attribute_of wanted.now) }
{
    attribute.flags == wanted.flags
        && attribute.name == wanted.name
        && attribute.value == wanted.value
}

/// Whether an attribute with this name and value still goes behind them into the fork.
pub(crate) fn has_room(
    core: &Core,
    inode: &[u8],
    name: &[u8],
    value: &[u8],
) -> Result<bool, ForkFault>
    requires core { CoreHolds inode.now core.now }
    requires forks { HasForks inode.now }
    ensures room { IfOk result (λ room. (attributes : List Attribute) × ShortAttributesHold (attr_fork_of inode.now) attributes
        × (IsTrue room ↔ ((short_size_of attributes + 3 + length name.now + length value.now ≤ length (attr_fork_of inode.now)) × (length value.now ≤ 255)))) }
    ensures fault { IfErr result (IsShortFault inode.now) }
{
    let short = short_of(core, inode)?;
    Ok(fits(short.size(), name, value, core.attr_fork(inode)))
}

/// Whether a short form without attributes has room for one.
pub(crate) fn has_room_alone(core: &Core, inode: &[u8], name: &[u8], value: &[u8]) -> bool
    requires core { CoreHolds inode.now core.now }
    requires forks { HasForks inode.now }
    ensures { IsTrue result ↔ ((4 + 3 + length name.now + length value.now ≤ length (attr_fork_of inode.now)) × (length value.now ≤ 255)) }
{
    fits(4, name, value, core.attr_fork(inode))
}

// Whether a form of so many bytes, with one attribute more, fits a fork.
fn fits(size: u64, name: &[u8], value: &[u8], fork: &[u8]) -> bool
    ensures { IsTrue result ↔ ((size + 3 + length name.now + length value.now ≤ length fork.now) × (length value.now ≤ 255)) }
{
    if value.len() > MOST_VALUE {
        return false;
    }
    let more = 3 + name.len() + value.len();
    more <= fork.len() && size <= (fork.len() - more) as u64
}
