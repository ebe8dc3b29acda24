ghost use Rattle.std.specs.Prelude.{◌≡◌, ◌≤◌, List, length, IfOk, IfErr, IsOkAnd, MatchResult, Some};
ghost use Rattle.xn_bytes.specs.declared.attribute.Attribute.{Attribute};
ghost use Rattle.xn_bytes.specs.ShortAttributes.{ShortAttributesHold, short_attributes_fault};
ghost use Rattle.xn_bytes.specs.AttributeRoom.{short_size_of};

use crate::short_check::{ATTRIBUTES, check};
use crate::short_entry::ShortAttrEntries;
use crate::short_fault::AttrShortFault;
use std::alloc::{AllocError, Global};
use std::marker::Model;
use xn_bytes::{Attribute, u16_at};

/// Attributes in short form, in the fork whose bytes they are. Contracts see their list.
///
/// The bytes are the total size in two, big-endian, the count, a free byte, and each attribute: its name's length, its
/// value's length, its flags, its name and its value. The bytes of the fork behind them are free.
#[derive(Debug, Drop)]
pub struct ShortAttrs<'a> {
    fork: &'a [u8],
}

impl<'a> Model for ShortAttrs<'a> {
    ghost use Rattle.std.specs.Prelude.{◌≡◌, List, None};
    ghost use Rattle.xn_bytes.specs.declared.attribute.Attribute.{Attribute};
    ghost use Rattle.xn_bytes.specs.ShortAttributes.{short_attributes_fault};
    ghost use Rattle.xn_attrleaf.specs.ShortChecks.{attributes_at_front};

    ghost Value = { List Attribute };

    ghost view = { λ s. attributes_at_front s.fork.now };

    ghost invariant = { λ s. short_attributes_fault s.fork.now ≡ None };
}

impl<'a> ShortAttrs<'a> {
    /// The attributes that an attribute fork begins with. Where it begins with none in short form, the error has the earliest
    /// place at which it fails. Takes no memory.
    pub fn read(fork: &'a [u8]) -> Result<ShortAttrs<'a>, AttrShortFault>
        // What is read stands there.
        ensures found { IfOk result (λ short. ShortAttributesHold fork.now short) }
        // What stands there is read, and nothing else stands there.
        ensures only { (attributes : List Attribute) → ShortAttributesHold fork.now attributes → IsOkAnd result (λ short. short ≡ attributes) }
        // Which fault it is.
        ensures fault { IfErr result (λ fault. short_attributes_fault fork.now ≡ Some fault.at) }
        ensures within { IfErr result (λ fault. fault.at ≤ length fork.now) }
    {
        check(fork)?;
        Ok(ShortAttrs { fork })
    }

    /// How many bytes the attributes take in the fork, with the four in front.
    pub fn size(&self) -> u64
        ensures { result ≡ short_size_of self.now }
    {
        u64::from(u16_at(self.fork, 0))
    }

    /// The attributes in order.
    pub fn entries(&self) -> ShortAttrEntries<'a>
        ensures { result ≡ self.now }
    {
        ShortAttrEntries::new(self.fork[2], &self.fork[ATTRIBUTES..])
    }
}

/// The attributes in order, with names and values of their own.
pub fn list(alloc: Global, short: &ShortAttrs<'_>) -> Result<Vec<Attribute>, AllocError>
    ensures { IfOk result (λ attributes. attributes.items ≡ short.now) }
{
    let mut attributes = Vec::new(alloc);
    for attribute in short.entries() {
        attributes.push(attribute.to_attribute(alloc)?)?;
    }
    Ok(attributes)
}
