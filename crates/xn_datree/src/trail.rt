//! The blocks that a walk has met.

ghost use Rattle.std.specs.Prelude.{◌≡◌, ◌≢◌, ◌∷◌, ◌↔◌, ◌≤◌, [], All, IsTrue, MatchOption, OnErr, OnOk};
ghost use Rattle.std.specs.Option.{option_copied};
ghost use Rattle.xn_bytes.specs.Trees.{AreEnds, IsOpenEnd, left_on};

use crate::visit::Met;
use std::alloc::{AllocError, Global};
use std::collections::{BTreeSet, VecDeque};
use std::marker::Model;

/// Levels are counted from 0, that of the leaves.
const LEVELS: u16 = 5;

/// The blocks that a walk has met, and their file blocks. Contracts see the list of the blocks, the latest first.
#[derive(Drop)]
pub(crate) struct Trail {
    met: VecDeque<Met>,
    file_blocks: BTreeSet<u64>,
}

impl Model for Trail {
    ghost use Rattle.std.specs.Prelude.{◌≡◌, ◌<◌, ◌==◌, ℕ, List};
    ghost use Rattle.std.specs.List.{list_any};
    ghost use Rattle.std.specs.Ordering.{nat_cmp};
    ghost use Rattle.std.specs.BTreeSet.{contains};
    ghost use Rattle.xn_bytes.specs.Trees.{Met as Meeting};

    ghost Value = { List Meeting };

    ghost view = { λ t. t.met.items };

    ghost invariant = { λ t. (file_block : ℕ) → contains nat_cmp t.file_blocks file_block ≡ list_any (λ one. one.file_block == file_block) t.met.items };
}

impl Trail {
    /// Nothing was met yet.
    pub(crate) fn new(alloc: Global) -> Trail
        ensures { result ≡ [] }
    {
        Trail {
            met: VecDeque::new(alloc),
            file_blocks: BTreeSet::new(alloc),
        }
    }

    /// Whether a file block was not met yet.
    pub(crate) fn is_new(&self, file_block: u64) -> bool
        ensures { IsTrue result ↔ All (λ one. one.file_block ≢ file_block) self.now }
    {
        !self.file_blocks.contains(&file_block)
    }

    /// The last that was met on a level.
    pub(crate) fn left_on(&self, level: u16) -> Option<Met>
        ensures { result ≡ left_on level self.now }
    {
        last_on(&self.met, level)
    }

    /// The last of the highest level whose last has a block on its right; None where no level has such a last one.
    pub(crate) fn open_end(&self) -> Option<Met>
        requires { All (λ one. one.level ≤ 4) self.now }
        ensures { MatchOption result (AreEnds self.now) (IsOpenEnd self.now) }
    {
        for level in (0..LEVELS).rev() {
            if let Some(last) = self.left_on(level)
                && last.right != 0
            {
                return Some(last);
            }
        }
        None
    }

    /// One more was met. Without memory nothing changes.
    pub(crate) fn meet(&mut self, met: Met) -> Result<(), AllocError>
        ensures ok { OnOk result (self.new ≡ met ∷ self.old) }
        ensures err { OnErr result (self.new ≡ self.old) }
    {
        self.met.push_front(met)?;
        if let Err(error) = self.file_blocks.insert(met.file_block) {
            let _ = self.met.pop_front();
            return Err(error.into());
        }
        Ok(())
    }
}

/// The first that was met on a level, of those that were met.
fn last_on(met: &VecDeque<Met>, level: u16) -> Option<Met>
    ensures { result ≡ left_on level met.now.items }
{
    for at in 0..met.len() {
        let one = met[at];
        if one.level == level {
            return Some(one);
        }
    }
    None
}
