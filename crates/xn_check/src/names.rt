//! What the rules between inodes look at.

use xn_census::Whole;
use xn_names::Naming;
use xn_reach::Reached;

/// The directories that hold entries with names, in order; the entries of those of which rule 21 holds, in order; and the inodes that
/// entries lead to from the root.
#[derive(Drop)]
pub(crate) struct Names {
    pub wholes: Vec<Whole>,
    pub namings: Vec<Naming>,
    pub reached: Reached,
}

/// Where is looked first for what is said of the next inode.
#[derive(Clone, Copy, Debug)]
pub(crate) struct Near {
    pub wholes: usize,
    pub namings: usize,
}
