//! What the flags of an attribute say.

ghost use Rattle.std.specs.Prelude.{◌≡◌};
ghost use Rattle.xn_bytes.specs.Attributes.{is_incomplete, is_parent};

const PARENT: u8 = 8;

const INCOMPLETE: u8 = 128;

/// Whether an attribute with these flags is a parent record.
pub(crate) fn is_parent(flags: u8) -> bool
    ensures { result ≡ is_parent flags }
{
    flags / PARENT % 2 == 1
}

/// Whether a change of an attribute with these flags was begun and not ended.
pub(crate) fn is_incomplete(flags: u8) -> bool
    ensures { result ≡ is_incomplete flags }
{
    flags / INCOMPLETE % 2 == 1
}
