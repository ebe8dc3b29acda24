ghost use Rattle.std.specs.Prelude.{◌≡◌, ◌+◌, ◌≤◌, length};
ghost use Rattle.xn_bytes.specs.Numbers.{number_at};
ghost use Rattle.xn_bytes.specs.ShortDirectory.{number_width};
ghost use Rattle.xn_short.specs.Widths.{byte_count};

use xn_bytes::{u32_at, u64_at};

/// How many bytes each inode number of a form has.
#[derive(Clone, Copy, Debug)]
pub(crate) enum NumberWidth {
    Four,
    Eight,
}

impl NumberWidth {
    /// The width in a form with so many inode numbers that need eight bytes.
    pub(crate) fn for_wide_numbers(count: u8) -> NumberWidth
        ensures { byte_count result ≡ number_width count }
    {
        if count == 0 {
            NumberWidth::Four
        } else {
            NumberWidth::Eight
        }
    }

    pub(crate) fn bytes(self) -> usize
        ensures { result ≡ byte_count self }
    {
        match self {
            NumberWidth::Four => 4,
            NumberWidth::Eight => 8,
        }
    }

    /// The inode number at a place.
    pub(crate) fn number_at(self, bytes: &[u8], at: usize) -> u64
        requires { at + byte_count self ≤ length bytes.now }
        ensures { result ≡ number_at (byte_count self) at bytes.now }
    {
        match self {
            NumberWidth::Four => u64::from(u32_at(bytes, at)),
            NumberWidth::Eight => u64_at(bytes, at),
        }
    }
}
