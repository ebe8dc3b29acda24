//! The superblock of an image, and what a command answers of the image by it.

ghost use Rattle.std.specs.Prelude.{◌≡◌, ◌↔◌, ◌+◌, ◌≤◌, ℕ, Err, List as Items, [], Contains, IfOk, IfSome, OnErr};
ghost use Rattle.xn_bytes.specs.Causes.{Rose};
ghost use Rattle.xn_inode.specs.Frames.{StoreStays};
ghost use Rattle.xn_machine.specs.Frames.{MachineStays};
ghost use Rattle.xn_meaning.specs.Manifests.{HasPlaces, InPool};
ghost use Rattle.xn_ns.specs.Ends.{end_of};
ghost use Rattle.xn_replay.specs.Viewed.{IsSeen};
ghost use Rattle.xn_text.specs.declared.words.Words.TheVariants.{List, Resolve, Parents};
ghost use Rattle.xfsns.specs.Answer.{EndsWith, ReadsAtMost};
ghost use Rattle.xn_check.specs.Checked.{check_end};
ghost use Rattle.xn_check.specs.Places.{IsPoolFor};
ghost use Rattle.xn_check.specs.declared.fault.CheckFault.TheVariants as checks;
ghost use Rattle.xn_ns.specs.declared.fault.SeeFault.TheVariants.{Read};
ghost use Rattle.xfsns.specs.Home.{Ended, FindsSuper, end_said, home_view};

use std::alloc::Global;
use xn_bytes::Bytes;
use xn_check::{CheckFault, check};
use xn_inode::{Store, Super};
use xn_machine::{Failed, Machine};
use xn_ns::{SeeFault, list, parents, resolve};
use xn_pool::Pool;
use xn_replay::{Seen, View};
use xn_text::{Manifest, Reply, Summary, Words};

/// Reads the superblock; None where it isn't accepted.
pub fn read_super<M: Machine>(machine: &mut M) -> Result<Option<Super>, Failed>
    ensures stays { MachineStays M.Machine machine.old machine.new }
    ensures reads { M.reads machine.new ≤ M.reads machine.old + 1 }
    ensures cause { OnErr result (Rose (M.read_faults machine.old) (M.read_faults machine.new)) }
    ensures found { IfOk result (FindsSuper (M.image machine.old)) }
    ensures seen { IfOk result (λ found. IfSome found (λ geometry. (blocks free : Items ℕ) → IsSeen (home_view geometry blocks free) (M.image machine.new) (M.sector_count machine.new) (M.read_faults machine.new) (M.reads machine.new))) }
{
    let sectors = machine.sectors();
    if sectors == 0 {
        return Ok(None);
    }
    let mut sector = [0; 512];
    machine.read(0, &mut sector)?;
    Ok(Super::read(&sector, sectors).ok())
}

/// What a command says.
#[derive(Debug, Drop)]
pub enum Said {
    Reply(Reply),
    Summary(Summary),
}

/// What a command says of the image whose superblock was read, by the manifest and its pool, of which every block is free.
pub fn ask_image<M: Machine>(
    alloc: Global,
    machine: &mut M,
    geometry: &Super,
    manifest: &Manifest,
    pool: Pool,
    command: &Words,
) -> Result<Said, SeeFault>
    requires pool { IsPoolFor geometry.now manifest.now pool }
    requires seen { (blocks free : Items ℕ) → IsSeen (home_view geometry.now blocks free) (M.image machine.old) (M.sector_count machine.old) (M.read_faults machine.old) (M.reads machine.old) }
    ensures stays { MachineStays M.Machine machine.old machine.new }
    ensures reads { IfSome (M.image machine.old) (λ x. ReadsAtMost command.now geometry.now manifest.now x (M.reads machine.old) (M.reads machine.new)) }
    ensures ended { Ended (EndsWith command.now geometry.now manifest.now) (M.image machine.old) (M.read_faults machine.old) (M.read_faults machine.new) result }
{
    let mut view = View::home(alloc, geometry, pool);
    ask_view(alloc, machine, &mut view, manifest, command)
}

/// What a command says of the image that a machine shows through a view as it was made.
fn ask_view<M: Machine>(
    alloc: Global,
    machine: &mut M,
    view: &mut View,
    manifest: &Manifest,
    command: &Words,
) -> Result<Said, SeeFault>
    requires seen { IsSeen view.old (M.image machine.old) (M.sector_count machine.old) (M.read_faults machine.old) (M.reads machine.old) }
    requires home { view.old.kept ≡ [] }
    requires places { HasPlaces view.old.shape manifest.now }
    requires pool { (block : ℕ) → Contains view.old.blocks block ↔ InPool manifest.now block }
    requires all_free { view.old.free ≡ view.old.blocks }
    ensures stays { MachineStays M.Machine machine.old machine.new }
    ensures reads { IfSome (M.image machine.old) (λ x. ReadsAtMost command.now view.old.shape manifest.now x (M.reads machine.old) (M.reads machine.new)) }
    ensures ended { Ended (EndsWith command.now view.old.shape manifest.now) (M.image machine.old) (M.read_faults machine.old) (M.read_faults machine.new) result }
{
    match command {
        Words::List { ino } => list_said(alloc, &mut Seen { view, machine }, manifest, *ino),
        Words::Resolve { path } => resolve_said(alloc, &mut Seen { view, machine }, manifest, path),
        Words::Parents { ino } => parents_said(alloc, &mut Seen { view, machine }, manifest, *ino),
        Words::Check => said_by(check(alloc, machine, view, manifest)),
    }
}

/// What the list of a directory says.
fn list_said<S: Store>(
    alloc: Global,
    store: &mut S,
    manifest: &Manifest,
    ino: u64,
) -> Result<Said, SeeFault>
    requires whole { S.IsWhole store.old }
    requires places { HasPlaces (S.shape store.old) manifest.now }
    ensures ended { Ended (EndsWith (List ino) (S.shape store.old) manifest.now) (S.image store.old) (S.faults store.old) (S.faults store.new) result }
    ensures stays { StoreStays S.Store store.old store.new }
    ensures fetches { IfSome (S.image store.old) (λ x. ReadsAtMost (List ino) (S.shape store.old) manifest.now x (S.fetches store.old) (S.fetches store.new)) }
{
    replied(list(alloc, store, manifest, ino))
}

/// What a walk says.
fn resolve_said<S: Store>(
    alloc: Global,
    store: &mut S,
    manifest: &Manifest,
    path: &Bytes,
) -> Result<Said, SeeFault>
    requires whole { S.IsWhole store.old }
    requires places { HasPlaces (S.shape store.old) manifest.now }
    ensures ended { Ended (EndsWith (Resolve path.now) (S.shape store.old) manifest.now) (S.image store.old) (S.faults store.old) (S.faults store.new) result }
    ensures stays { StoreStays S.Store store.old store.new }
    ensures fetches { IfSome (S.image store.old) (λ x. ReadsAtMost (Resolve path.now) (S.shape store.old) manifest.now x (S.fetches store.old) (S.fetches store.new)) }
{
    replied(resolve(alloc, store, manifest, path.as_slice()))
}

/// What the list of an inode's parents says.
fn parents_said<S: Store>(
    alloc: Global,
    store: &mut S,
    manifest: &Manifest,
    ino: u64,
) -> Result<Said, SeeFault>
    requires whole { S.IsWhole store.old }
    requires places { HasPlaces (S.shape store.old) manifest.now }
    ensures ended { Ended (EndsWith (Parents ino) (S.shape store.old) manifest.now) (S.image store.old) (S.faults store.old) (S.faults store.new) result }
    ensures stays { StoreStays S.Store store.old store.new }
    ensures fetches { IfSome (S.image store.old) (λ x. ReadsAtMost (Parents ino) (S.shape store.old) manifest.now x (S.fetches store.old) (S.fetches store.new)) }
{
    replied(parents(alloc, store, manifest, ino))
}

/// What a command that replies says.
fn replied(answered: Result<Reply, SeeFault>) -> Result<Said, SeeFault>
    ensures end { end_said result ≡ end_of answered }
    ensures fault { result ≡ Err Read → answered ≡ Err Read }
{
    match answered {
        Ok(reply) => Ok(Said::Reply(reply)),
        Err(fault) => Err(fault),
    }
}

/// What the checker says.
fn said_by(checked: Result<Summary, CheckFault>) -> Result<Said, SeeFault>
    ensures end { end_said result ≡ check_end checked }
    ensures fault { result ≡ Err Read → checked ≡ Err checks.Read }
{
    match checked {
        Ok(summary) => Ok(Said::Summary(summary)),
        Err(CheckFault::Broken { rule, inode, block }) => Err(SeeFault::Broken {
            rule,
            inode,
            block,
        }),
        Err(CheckFault::Read) => Err(SeeFault::Read),
        Err(CheckFault::Memory) => Err(SeeFault::Memory),
    }
}
