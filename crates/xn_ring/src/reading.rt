//! Sectors of the log, as a machine reads them.

ghost use Rattle.std.specs.Prelude.{◌≡◌, ◌*◌, ◌+◌, ◌<◌, ◌≤◌, IfOk, IfSome, length, slice_range, take};
ghost use Rattle.xn_log.specs.Ring.{ring_of, turned};
ghost use Rattle.xn_machine.specs.Frames.{MachineStays};
ghost use Rattle.xn_ring.specs.Places.{HasRing, HasReadCause};

use crate::RingFault;
use std::alloc::Global;
use xn_inode::Super;
use xn_machine::Machine;

const SECTOR: usize = 512;

/// Reads so many sectors of the log from one on; after its last sector it goes on at its first one.
pub(crate) fn read_turned<M: Machine>(
    alloc: Global,
    machine: &mut M,
    geometry: &Super,
    from: u32,
    count: u32,
) -> Result<Vec<u8>, RingFault>
    requires log { HasRing geometry.now (M.image machine.old) (M.sector_count machine.old) (M.read_faults machine.old) (M.reads machine.old) }
    requires within { from < 8 * geometry.now.log_blocks }
    requires some { 0 < count }
    requires once { count ≤ 8 * geometry.now.log_blocks }
    ensures bytes { IfOk result (λ bytes. IfSome (M.image machine.old) (λ x. bytes.items ≡ take (512 * count) (turned (ring_of geometry.now x) from))) }
    ensures size { IfOk result (λ bytes. length bytes.items ≡ 512 * count) }
    ensures cause { HasReadCause (M.read_faults machine.old) (M.read_faults machine.new) result }
    ensures log { HasRing geometry.now (M.image machine.new) (M.sector_count machine.new) (M.read_faults machine.new) (M.reads machine.new) }
    ensures only_read { MachineStays M.Machine machine.old machine.new }
{
    let end = geometry.log_sectors() - from;
    if count <= end {
        return read_straight(alloc, machine, geometry, from, count);
    }
    let mut bytes = read_straight(alloc, machine, geometry, from, end)?;
    let front = read_straight(alloc, machine, geometry, 0, count - end)?;
    bytes.extend_from_slice(&front)?;
    Ok(bytes)
}

/// Reads so many sectors of the log from one on, none of them past its last one.
fn read_straight<M: Machine>(
    alloc: Global,
    machine: &mut M,
    geometry: &Super,
    from: u32,
    count: u32,
) -> Result<Vec<u8>, RingFault>
    requires log { HasRing geometry.now (M.image machine.old) (M.sector_count machine.old) (M.read_faults machine.old) (M.reads machine.old) }
    requires some { 0 < count }
    requires within { from + count ≤ 8 * geometry.now.log_blocks }
    ensures bytes { IfOk result (λ bytes. IfSome (M.image machine.old) (λ x. bytes.items ≡ slice_range (ring_of geometry.now x) (512 * from) (512 * from + 512 * count))) }
    ensures size { IfOk result (λ bytes. length bytes.items ≡ 512 * count) }
    ensures cause { HasReadCause (M.read_faults machine.old) (M.read_faults machine.new) result }
    ensures log { HasRing geometry.now (M.image machine.new) (M.sector_count machine.new) (M.read_faults machine.new) (M.reads machine.new) }
    ensures only_read { MachineStays M.Machine machine.old machine.new }
{
    let mut bytes = vec![in alloc; 0; SECTOR * count as usize]?;
    machine.read(geometry.first_log_sector() + u64::from(from), &mut bytes)?;
    Ok(bytes)
}
