//! One attribute among those of a leaf.

ghost use Rattle.std.specs.Prelude.{◌≡◌, ◌↔◌, Contains, IsTrue};
ghost use Rattle.xn_bytes.specs.declared.attribute.Value.TheVariants.{Here};
ghost use Rattle.xn_attrleaf.specs.ShortViewed.{attribute_of};

use xn_attrleaf::ShortAttr;
use xn_bytes::{Attribute, Value};

/// Whether an attribute is among these.
pub(crate) fn is_among(attributes: &[Attribute], wanted: &ShortAttr<'_>) -> bool
    ensures { IsTrue result ↔ Contains attributes.now (attribute_of wanted.now) }
{
    for attribute in attributes {
        if is_wanted(attribute, wanted) {
            return true;
        }
    }
    false
}

fn is_wanted(attribute: &Attribute, wanted: &ShortAttr<'_>) -> bool
    ensures { IsTrue result ↔ (attribute.now ≡ attribute_of wanted.now) }
{
    attribute.flags == wanted.flags
        && attribute.name.as_slice() == wanted.name
        && has_value(&attribute.value, wanted.value)
}

fn has_value(value: &Value, wanted: &[u8]) -> bool
    ensures { IsTrue result ↔ (value.now ≡ Here wanted.now) }
{
    match value {
        Value::Here(bytes) => bytes.as_slice() == wanted,
        Value::Remote { .. } => false,
    }
}
