//! The log's sectors, looked at in pieces.

ghost use Rattle.std.specs.Prelude.{◌+◌, ◌*◌, ◌<◌, ◌≤◌, IfOk, IfSome, OnOk};
ghost use Rattle.xn_log.specs.Ring.{ring_of};
ghost use Rattle.xn_machine.specs.Frames.{MachineStays};
ghost use Rattle.xn_ring.specs.Places.{HasRing, HasReadCause};
ghost use Rattle.xn_ring.specs.Scans.{HavePlaces, IsNoted};

use crate::RingFault;
use crate::found::Found;
use crate::reading::read_turned;
use std::alloc::Global;
use xn_inode::Super;
use xn_machine::Machine;

/// How many sectors are looked at after each read: half a MiB.
const PIECE: u32 = 1024;

/// How many sectors a record takes at most behind its header.
const AHEAD: u32 = 64;

/// Looks at all sectors of the log. Each is read once, and the front of each piece once more with the one before it.
pub(crate) fn scan_log<M: Machine>(
    alloc: Global,
    machine: &mut M,
    geometry: &Super,
) -> Result<Found, RingFault>
    requires { HasRing geometry.now (M.image machine.old) (M.sector_count machine.old) (M.read_faults machine.old) (M.reads machine.old) }
    ensures noted { IfOk result (λ found. IfSome (M.image machine.old) (λ x. IsNoted geometry.now.uuid (ring_of geometry.now x) (8 * geometry.now.log_blocks) found)) }
    ensures places { IfOk result (λ found. HavePlaces (8 * geometry.now.log_blocks) (8 * geometry.now.log_blocks) found.outlines.items) }
    ensures cause { HasReadCause (M.read_faults machine.old) (M.read_faults machine.new) result }
    ensures log { HasRing geometry.now (M.image machine.new) (M.sector_count machine.new) (M.read_faults machine.new) (M.reads machine.new) }
    ensures only_read { MachineStays M.Machine machine.old machine.new }
{
    let sectors = geometry.log_sectors();
    let mut found = Found::new(alloc);
    let mut start = 0;
    while start < sectors {
        let count = PIECE.min(sectors - start);
        scan_piece(alloc, machine, geometry, start, count, &mut found)?;
        start += count;
    }
    Ok(found)
}

/// Looks at so many sectors of the log from one on.
fn scan_piece<M: Machine>(
    alloc: Global,
    machine: &mut M,
    geometry: &Super,
    start: u32,
    count: u32,
    found: &mut Found,
) -> Result<(), RingFault>
    requires log { HasRing geometry.now (M.image machine.old) (M.sector_count machine.old) (M.read_faults machine.old) (M.reads machine.old) }
    requires some { 0 < count }
    requires few { count ≤ 1024 }
    requires within { start + count ≤ 8 * geometry.now.log_blocks }
    ensures noted { OnOk result (IfSome (M.image machine.old) (λ x. IsNoted geometry.now.uuid (ring_of geometry.now x) start found.old → IsNoted geometry.now.uuid (ring_of geometry.now x) (start + count) found.new)) }
    ensures places { OnOk result (HavePlaces (8 * geometry.now.log_blocks) start found.old.outlines.items → HavePlaces (8 * geometry.now.log_blocks) (start + count) found.new.outlines.items) }
    ensures cause { HasReadCause (M.read_faults machine.old) (M.read_faults machine.new) result }
    ensures log { HasRing geometry.now (M.image machine.new) (M.sector_count machine.new) (M.read_faults machine.new) (M.reads machine.new) }
    ensures only_read { MachineStays M.Machine machine.old machine.new }
{
    let bytes = read_turned(alloc, machine, geometry, start, count + AHEAD)?;
    found.note_piece(
        &bytes,
        start,
        count,
        geometry.log_sectors(),
        geometry.uuid(),
    )?;
    Ok(())
}
