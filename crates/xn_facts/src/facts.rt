//! What the checker keeps of an inode.

ghost use Rattle.std.specs.Prelude.{◌≡◌};
ghost use Rattle.xn_facts.specs.Verdicts.{broken_in, lesser_of};

use xn_bytes::Kind;
use xn_dir::Listed;
use xn_inode::{CoreFault, ForkFault, StoreFault};
use xn_items::ParentRec;
use xn_near::Numbered;

/// A rule that an inode breaks. Rules 17, 18 and 25 name a block by its number on the device, all others block 0.
#[derive(Clone, Copy, Debug, PartialEq, Eq)]
pub struct Broken {
    pub rule: u8,
    pub block: u64,
}

impl Broken {
    /// The rule that a core breaks, which names no block.
    pub(crate) fn of_core(fault: CoreFault) -> Broken
        ensures { (result.rule ≡ fault.rule) × (result.block ≡ 0) }
    {
        Broken {
            rule: fault.rule,
            block: 0,
        }
    }

    /// The rule that a fault of a fork names; else the store's fault.
    pub(crate) fn of_fault(fault: ForkFault) -> Result<Broken, StoreFault>
        ensures { result ≡ broken_in fault }
    {
        match fault {
            ForkFault::Read => Err(StoreFault::Read),
            ForkFault::Memory => Err(StoreFault::Memory),
            ForkFault::Broken { rule, block } => Ok(Broken { rule, block }),
        }
    }
}

/// The one with the lesser rule, if there is one; of the same rule the first.
pub fn lesser(one: Option<Broken>, other: Option<Broken>) -> Option<Broken>
    ensures { result ≡ lesser_of one other }
{
    match (one, other) {
        (Some(first), Some(second)) if second.rule < first.rule => Some(second),
        (Some(first), _) => Some(first),
        (None, second) => second,
    }
}

/// So many blocks, from a file block and from a block on.
#[derive(Clone, Copy, Debug, PartialEq, Eq)]
pub struct Run {
    pub file_block: u64,
    pub block: u64,
    pub count: u64,
}

/// What a directory holds.
#[derive(Debug, Drop)]
pub struct Contents {
    /// In rising position, without dot and dotdot.
    pub entries: Vec<Listed>,
    /// The inode that is dotdot.
    pub dotdot: u64,
    /// Whether dot, where it stands in a block, is the directory itself.
    pub has_dot: bool,
}

/// What is said of an inode of which rules 10 and 11 hold.
#[derive(Clone, Copy, Debug, PartialEq, Eq)]
pub struct Known {
    pub kind: Kind,
    pub nlink: u32,
    pub generation: u32,
}

/// What is kept of every inode.
#[derive(Debug, Drop)]
pub struct Node {
    pub ino: u64,
    /// Whether its mode is a directory's.
    pub is_directory: bool,
    /// Where rules 10 and 11 hold.
    pub known: Option<Known>,
    /// Its parent records in order, where rules 10, 11, 13 and 24 to 26 hold.
    pub parents: Option<Vec<ParentRec>>,
    /// The first that is broken of the rules 10, 11, 13 to 20 and 24 to 26, and of 21 as far as it speaks of names.
    pub broken: Option<Broken>,
}

impl Numbered for Node {
    ghost number_of = { λ node. node.ino };

    fn number(&self) -> u64 {
        self.ino
    }
}

/// What the rules on one inode and its blocks say of an inode.
#[derive(Debug, Drop)]
pub struct Facts {
    pub node: Node,
    /// What it holds, where it is a directory of which rules 10, 11, 13 and 15 to 20 hold, and rule 21 as far as it speaks of names.
    pub contents: Option<Contents>,
    /// What its forks map, a directory's data fork first; nothing where one of the rules 10, 11 and 13 is broken.
    pub runs: Vec<Run>,
}
