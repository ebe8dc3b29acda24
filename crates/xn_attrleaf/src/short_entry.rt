ghost use Rattle.std.specs.Prelude.{◌≡◌, drop, map, IfOk, IsTrue};
ghost use Rattle.std.specs.Iterator.{YieldsFirstBy, item_count};
ghost use Rattle.xn_bytes.specs.ShortAttributes.{attribute_of_short, attributes_in, attributes_there, front_attribute, front_size};
ghost use Rattle.xn_attrleaf.specs.ShortChecks.{front_there};
ghost use Rattle.xn_attrleaf.specs.ShortViewed.{attribute_of};

use crate::short_check::NAME;
use std::alloc::{AllocError, Global};
use std::marker::Model;
use xn_bytes::{Attribute, Bytes, Value};

/// An attribute in short form, with its name and its value in place. Its flags are without the lowest bit, which isn't
/// looked at: the value always stands beside the name.
#[derive(Clone, Copy, Debug, PartialEq, Eq)]
pub struct ShortAttr<'a> {
    pub flags: u8,
    pub name: &'a [u8],
    pub value: &'a [u8],
}

impl ShortAttr<'_> {
    /// The attribute with a name and a value of its own.
    pub fn to_attribute(&self, alloc: Global) -> Result<Attribute, AllocError>
        ensures { IfOk result (λ attribute. attribute ≡ attribute_of self.now) }
    {
        let name = Bytes::new(self.name.to_vec(alloc)?);
        let value = Bytes::new(self.value.to_vec(alloc)?);
        Ok(Attribute {
            flags: self.flags,
            name,
            value: Value::Here(value),
        })
    }
}

/// The attributes of a short form, in order. Contracts see the list of those that are left.
#[derive(Debug, Drop)]
pub struct ShortAttrEntries<'a> {
    left: u8,
    rest: &'a [u8],
}

impl<'a> Model for ShortAttrEntries<'a> {
    ghost use Rattle.std.specs.Prelude.{List, map, IsTrue};
    ghost use Rattle.xn_bytes.specs.declared.attribute.Attribute.{Attribute};
    ghost use Rattle.xn_bytes.specs.ShortAttributes.{attribute_of_short, attributes_in, attributes_there};

    ghost Value = { List Attribute };

    ghost view = { λ s. map attribute_of_short (attributes_in s.left s.rest.now) };

    ghost invariant = { λ s. IsTrue (attributes_there s.left s.rest.now) };
}

impl<'a> ShortAttrEntries<'a> {
    /// The attributes at the front of `rest`.
    pub(crate) fn new(left: u8, rest: &'a [u8]) -> ShortAttrEntries<'a>
        requires { IsTrue (attributes_there left rest.now) }
        ensures { result ≡ map attribute_of_short (attributes_in left rest.now) }
    {
        ShortAttrEntries { left, rest }
    }
}

impl<'a> Iterator for ShortAttrEntries<'a> {
    type Item = ShortAttr<'a>;

    ghost next_gives = { YieldsFirstBy attribute_of (λ s. s) };

    ghost remaining = { item_count (λ s. s) };

    fn next(&mut self) -> Option<ShortAttr<'a>> {
        if self.left == 0 {
            return None;
        }
        let (attribute, rest) = split_front(self.rest);
        self.left -= 1;
        self.rest = rest;
        Some(attribute)
    }
}

// The attribute at the front, and the bytes behind it.
fn split_front(rest: &[u8]) -> (ShortAttr<'_>, &[u8])
    requires { IsTrue (front_there rest.now) }
    ensures attribute { attribute_of result.0 ≡ attribute_of_short (front_attribute rest.now) }
    ensures rest { result.1.now ≡ drop (front_size rest.now) rest.now }
{
    let name_end = NAME + usize::from(rest[0]);
    let value_end = name_end + usize::from(rest[1]);
    let flags = rest[2];
    let attribute = ShortAttr {
        flags: flags - flags % 2,
        name: &rest[NAME..name_end],
        value: &rest[name_end..value_end],
    };
    (attribute, &rest[value_end..])
}
