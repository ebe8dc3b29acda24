//! The records that outlines tell of, read from the log.

ghost use Rattle.std.specs.Prelude.{◌≡◌, ◌*◌, All, IfErr, IfOk, IfSome, map};
ghost use Rattle.xn_log.specs.Ring.{record_at, ring_of};
ghost use Rattle.xn_machine.specs.Frames.{MachineStays};
ghost use Rattle.xn_ring.specs.Places.{HasRing, HasRingCause};
ghost use Rattle.xn_ring.specs.Scans.{IsOutlineOf, IsPlaced};

use crate::RingFault;
use crate::reading::read_turned;
use std::alloc::Global;
use xn_inode::Super;
use xn_log::{Outline, Record};
use xn_machine::Machine;
use xn_record::decode;

/// Reads the records that these outlines tell of.
pub(crate) fn read_records<M: Machine>(
    alloc: Global,
    machine: &mut M,
    geometry: &Super,
    outlines: &[Outline],
) -> Result<Vec<Record>, RingFault>
    requires log { HasRing geometry.now (M.image machine.old) (M.sector_count machine.old) (M.read_faults machine.old) (M.reads machine.old) }
    requires places { All (IsPlaced (8 * geometry.now.log_blocks) (8 * geometry.now.log_blocks)) outlines.now }
    ensures records { IfOk result (λ records. IfSome (M.image machine.old) (λ x. All (IsOutlineOf geometry.now.uuid (ring_of geometry.now x) (8 * geometry.now.log_blocks)) outlines.now
        → records.items ≡ map (λ o. record_at (ring_of geometry.now x) o.sector) outlines.now)) }
    ensures missing { IfErr result (λ fault. fault ≡ RingFault.NoRecord → IfSome (M.image machine.old) (λ x. ¬ All (IsOutlineOf geometry.now.uuid (ring_of geometry.now x) (8 * geometry.now.log_blocks)) outlines.now)) }
    ensures cause { HasRingCause (M.read_faults machine.old) (M.read_faults machine.new) result }
    ensures log { HasRing geometry.now (M.image machine.new) (M.sector_count machine.new) (M.read_faults machine.new) (M.reads machine.new) }
    ensures only_read { MachineStays M.Machine machine.old machine.new }
{
    let mut records = Vec::new(alloc);
    for outline in outlines {
        records.push(read_record(alloc, machine, geometry, outline)?)?;
    }
    Ok(records)
}

/// Reads the record that an outline tells of.
fn read_record<M: Machine>(
    alloc: Global,
    machine: &mut M,
    geometry: &Super,
    outline: &Outline,
) -> Result<Record, RingFault>
    requires log { HasRing geometry.now (M.image machine.old) (M.sector_count machine.old) (M.read_faults machine.old) (M.reads machine.old) }
    requires place { IsPlaced (8 * geometry.now.log_blocks) (8 * geometry.now.log_blocks) outline.now }
    ensures whole { IfOk result (λ found. IfSome (M.image machine.old) (λ x. IsOutlineOf geometry.now.uuid (ring_of geometry.now x) (8 * geometry.now.log_blocks) outline.now
        → found ≡ record_at (ring_of geometry.now x) outline.now.sector)) }
    ensures missing { IfErr result (λ fault. fault ≡ RingFault.NoRecord → IfSome (M.image machine.old) (λ x. ¬ IsOutlineOf geometry.now.uuid (ring_of geometry.now x) (8 * geometry.now.log_blocks) outline.now)) }
    ensures cause { HasRingCause (M.read_faults machine.old) (M.read_faults machine.new) result }
    ensures log { HasRing geometry.now (M.image machine.new) (M.sector_count machine.new) (M.read_faults machine.new) (M.reads machine.new) }
    ensures only_read { MachineStays M.Machine machine.old machine.new }
{
    let bytes = read_turned(alloc, machine, geometry, outline.sector, outline.sectors)?;
    let record = decode(
        alloc,
        &bytes,
        outline.sector,
        geometry.log_sectors(),
        geometry.uuid(),
    )?;
    Ok(record)
}
