ghost use Rattle.std.specs.Prelude.{◌≡◌, ◌↔◌, ◌≤◌, length, IfOk, IfErr, IsOkAnd, IsNone, IfSome};
ghost use Rattle.xn_bytes.specs.ShortDirectory.{ShortForm, IsShortForm, ShortHolds, short_fault};
ghost use Rattle.xn_short.specs.Checks.{FindsFault};
ghost use Rattle.xn_short.specs.Viewed.{entry_of};
ghost use Rattle.xn_short.specs.Naming.{HasNone, IsFirstNamed};

use crate::check::check;
use crate::entry::{ShortEntries, ShortEntry};
use crate::fault::ShortFault;
use crate::layout::PARENT;
use crate::width::NumberWidth;
use std::marker::Model;

/// A directory in short form, in the bytes that spell it. Contracts see the form: the parent and the entries.
///
/// The bytes are the count of the entries, the count of inode numbers that need eight bytes (the parent's included),
/// the parent's inode number, and each entry: its name's length, its position in two bytes, its name, its kind and its
/// inode number. Numbers are big-endian, and inode numbers have four bytes, or all of them eight where one needs it.
/// Positions rise as in a data block of 4,096 bytes that has place for the whole.
#[derive(Debug, Drop)]
pub struct Short<'a> {
    bytes: &'a [u8],
}

impl<'a> Model for Short<'a> {
    ghost use Rattle.xn_bytes.specs.ShortDirectory.{ShortForm, ShortHolds, form_in};

    ghost Value = { ShortForm };

    ghost view = { λ s. form_in s.bytes.now };

    ghost invariant = { λ s. ShortHolds s.bytes.now (form_in s.bytes.now) };
}

impl<'a> Short<'a> {
    /// The form that the bytes spell, all of the bytes. Where they spell none, the error has the earliest place at which
    /// they fail. The count of inode numbers that need eight bytes is compared where all the entries' bytes are there.
    /// Takes no memory.
    pub fn read(bytes: &'a [u8]) -> Result<Short<'a>, ShortFault>
        // What is read is spelled so.
        ensures found { IfOk result (λ short. ShortHolds bytes.now short) }
        // What is spelled so is read, and only one form is spelled so.
        ensures only { (form : ShortForm) → ShortHolds bytes.now form → IsOkAnd result (λ short. short ≡ form) }
        // Which fault it is.
        ensures exact { FindsFault (short_fault bytes.now) result }
        ensures within { IfErr result (λ fault. fault.at ≤ length bytes.now) }
    {
        check(bytes)?;
        Ok(Short { bytes })
    }

    /// The inode of the directory that this one stands in.
    #[tactic(auto, unfolding(xn_bytes::specs::ShortDirectory::form_in))]
    pub fn parent(&self) -> u64
        ensures { result ≡ self.now.parent }
    {
        NumberWidth::for_wide_numbers(self.bytes[1]).number_at(self.bytes, PARENT)
    }

    /// The entries in order of their positions.
    pub fn entries(&self) -> ShortEntries<'a>
        ensures entries { result ≡ self.now.entries }
        ensures lawful { IsShortForm self.now }
    {
        let width = NumberWidth::for_wide_numbers(self.bytes[1]);
        ShortEntries::new(self.bytes[0], width, &self.bytes[PARENT + width.bytes()..])
    }

    /// The first entry with that name.
    pub fn find(&self, name: &[u8]) -> Option<ShortEntry<'a>>
        ensures none { IsNone result ↔ HasNone name.now self.now.entries }
        ensures found { IfSome result (λ entry. IsFirstNamed name.now self.now.entries (entry_of entry)) }
    {
        for entry in self.entries() {
            if entry.name == name {
                return Some(entry);
            }
        }
        None
    }
}
