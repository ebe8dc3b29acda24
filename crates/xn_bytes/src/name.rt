ghost use Rattle.std.specs.Prelude.{◌≡◌, ◌≢◌, ◌↔◌, IsTrue, Some, is_none, MatchOption, MatchResult};
ghost use Rattle.xn_bytes.specs.Names.{IsName, IsNameFault};

use smallvec::SmallVec;
use std::alloc::Global;
use std::marker::Model;

/// So many bytes a name keeps in itself; most names have no more.
const INLINE: usize = 24;

/// Why bytes are no name, in the order in which the causes are looked for.
#[derive(Clone, Copy, Debug, PartialEq, Eq)]
pub enum NameFault {
    /// There are no bytes.
    Empty,
    /// There are more than 255 bytes.
    Long,
    /// The byte at this place is the first that is 0 or `/`.
    Byte { at: u64 },
    /// The bytes are `.` or `..`.
    Dots,
    /// Memory ran out.
    Memory,
}

/// A name in a directory: 1 to 255 bytes without 0 and `/`, and neither `.` nor `..`. Contracts see its bytes.
#[derive(Debug, Drop)]
pub struct Name {
    bytes: SmallVec<u8, INLINE>,
}

impl Model for Name {
    ghost use Rattle.std.specs.Prelude.{ℕ, List};
    ghost use Rattle.xn_bytes.specs.Names.{IsName};

    ghost Value = { List ℕ };

    ghost view = { λ n. n.bytes.items };

    ghost invariant = { λ n. IsName n.bytes.items };
}

impl Name {
    /// The name of these bytes, or the first cause for which they are none.
    pub fn read(alloc: Global, bytes: &[u8]) -> Result<Name, NameFault>
        ensures { MatchResult result (λ name. (name ≡ bytes.now) × IsName bytes.now) (IsNameFault bytes.now) }
    {
        if let Some(fault) = fault_of(bytes) {
            return Err(fault);
        }
        match SmallVec::from_slice(alloc, bytes) {
            Ok(bytes) => Ok(Name { bytes }),
            Err(_) => Err(NameFault::Memory),
        }
    }

    /// The bytes of the name.
    pub fn bytes(&self) -> &[u8]
        ensures value { result.now ≡ self.now }
        ensures name { IsName self.now }
    {
        &self.bytes
    }
}

/// Whether bytes are a name. It takes no memory.
pub fn is_name(bytes: &[u8]) -> bool
    ensures { IsTrue result ↔ IsName bytes.now }
{
    fault_of(bytes).is_none()
}

/// The first cause for which bytes are no name.
fn fault_of(bytes: &[u8]) -> Option<NameFault>
    ensures first { MatchOption result (IsName bytes.now) (IsNameFault bytes.now) }
    ensures not_memory { result ≢ Some NameFault.Memory }
    ensures decides { IsTrue (is_none result) ↔ IsName bytes.now }
{
    if bytes.is_empty() {
        return Some(NameFault::Empty);
    }
    if bytes.len() > 255 {
        return Some(NameFault::Long);
    }
    if let Some(at) = bytes.iter().position(|byte| *byte == 0 || *byte == b'/') {
        return Some(NameFault::Byte { at: at as u64 });
    }
    if bytes == b".".as_slice() || bytes == b"..".as_slice() {
        return Some(NameFault::Dots);
    }
    None
}
