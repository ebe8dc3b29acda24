//! What is found of an image, read through a store.

ghost use Rattle.std.specs.Prelude.{◌≡◌, All, IfErr, IfOk, IfSome, List, ℕ, map};
ghost use Rattle.xn_bytes.specs.Causes.{Rose};
ghost use Rattle.xn_inode.specs.Frames.{StoreStays};
ghost use Rattle.xn_bytes.specs.Superblock.{Geometry};
ghost use Rattle.xn_meaning.specs.Manifests.{HasPlaces};
ghost use Rattle.xn_rules.specs.Checking.{directories_among};
ghost use Rattle.xn_facts.specs.Facts.{NodeHolds};
ghost use Rattle.xn_check.specs.Examined.{IsExamined, Refuses};
ghost use Rattle.xn_check.specs.Surveyed.{IsSurvey};
ghost use Rattle.xn_check.specs.declared.fault.CheckFault.TheVariants.{Read};

use crate::fault::CheckFault;
use crate::judge::judge;
use crate::whole_image::runs_are_right;
use std::alloc::Global;
use xn_census::{Census, sort_out, take_census};
use xn_facts::{Node, Run};
use xn_inode::Store;
use xn_live::live_inodes;
use xn_text::Manifest;

/// What was found of an image of which all rules hold.
#[derive(Debug, Drop)]
pub(crate) struct Examined {
    pub inodes: u64,
    pub directories: u64,
    pub entries: u64,
    /// What the forks of all inodes map.
    pub runs: Vec<Run>,
}

/// What was found of all live inodes, each by itself, and whether rule 9 holds of what their forks map.
#[derive(Debug, Drop)]
struct Survey {
    census: Census,
    is_mapped_once: bool,
}

/// Looks at all live inodes, and at the rules from 5 on.
pub(crate) fn examine<S: Store>(
    alloc: Global,
    store: &mut S,
    manifest: &Manifest,
) -> Result<Examined, CheckFault>
    requires whole { S.IsWhole store.old }
    requires places { HasPlaces (S.shape store.old) manifest.now }
    ensures examined { IfOk result (λ examined. IfSome (S.image store.old) (λ x. IsExamined (S.shape store.old) manifest.now x examined)) }
    ensures refuses { IfErr result (λ fault. IfSome (S.image store.old) (λ x. Refuses (S.shape store.old) manifest.now x fault)) }
    ensures cause { IfErr result (λ fault. fault ≡ Read → Rose (S.faults store.old) (S.faults store.new)) }
    ensures stays { StoreStays S.Store store.old store.new }
{
    let Survey {
        census,
        is_mapped_once,
    } = take_survey(alloc, store, manifest)?;
    let Census { nodes, held, runs } = census;
    let out = sort_out(alloc, &nodes, held)?;
    let entries = judge(alloc, store.geometry(), &nodes, out, is_mapped_once)?;
    Ok(Examined {
        inodes: nodes.len() as u64,
        directories: count_directories(&nodes),
        entries,
        runs,
    })
}

/// Looks at all live inodes, each by itself, and at rule 9. The list of live inodes goes before entries are sorted out, which take the
/// most memory.
fn take_survey<S: Store>(
    alloc: Global,
    store: &mut S,
    manifest: &Manifest,
) -> Result<Survey, CheckFault>
    requires whole { S.IsWhole store.old }
    requires places { HasPlaces (S.shape store.old) manifest.now }
    ensures surveys { IfOk result (IsSurvey (S.shape store.old) manifest.now (S.image store.old)) }
    ensures refuses { IfErr result (λ fault. IfSome (S.image store.old) (λ x. Refuses (S.shape store.old) manifest.now x fault)) }
    ensures cause { IfErr result (λ fault. fault ≡ Read → Rose (S.faults store.old) (S.faults store.new)) }
    ensures stays { StoreStays S.Store store.old store.new }
{
    let live = live_inodes(alloc, store.geometry(), manifest)?;
    let census = take_census(alloc, store, &live)?;
    let is_mapped_once = runs_are_right(alloc, &census.runs, &live)?;
    Ok(Survey {
        census,
        is_mapped_once,
    })
}

/// How many inodes are directories by their modes.
fn count_directories(nodes: &[Node]) -> u64
    ensures { (g : Geometry) (image : List ℕ) → All (NodeHolds g image) nodes.now → result ≡ directories_among g image (map (λ node. node.ino) nodes.now) }
{
    nodes.iter().filter(|node| node.is_directory).count() as u64
}
