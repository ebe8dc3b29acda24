ghost use Rattle.std.specs.Prelude.{◌≡◌, ◌+◌, ◌<◌, ◌≤◌, IfErr, IfOk, IfSome, nat_lt, if◌then◌else◌};
ghost use Rattle.xn_log.specs.Heads.{HasNoHead, RingHolds};
ghost use Rattle.xn_log.specs.Records.{greatest_cycle};
ghost use Rattle.xn_log.specs.Ring.{ring_of};
ghost use Rattle.xn_machine.specs.Frames.{MachineStays};
ghost use Rattle.xn_ring.specs.Places.{HasRing, HasRingCause};
ghost use Rattle.xn_ring.specs.Scans.{left_free};

use crate::RingFault;
use crate::chain::sector_after;
use crate::found::Found;
use crate::head::find_head;
use crate::live::read_records;
use crate::scan::scan_log;
use std::alloc::Global;
use std::marker::Model;
use xn_inode::Super;
use xn_log::{Outline, Record};
use xn_machine::Machine;

/// What was found of the log's ring: its head and its live records, and where the next record goes. Contracts see a `RingState`.
#[derive(Debug, Drop)]
pub struct Ring {
    head_cycle: u32,
    next_cycle: u32,
    next_sector: u32,
    free_sectors: u32,
    live: Vec<Record>,
    marks: Vec<u32>,
}

impl Model for Ring {
    ghost use Rattle.xn_log.specs.Heads.{RingState};

    ghost Value = { RingState };

    ghost view = { λ r. record {
      head_cycle = r.head_cycle;
      next_cycle = r.next_cycle;
      next_sector = r.next_sector;
      free = r.free_sectors;
      live = r.live.items;
      marks = r.marks.items;
    } };
}

impl Ring {
    /// Finds the head and the live records of the log. The log's sectors are read, and nothing is written.
    ///
    /// Fails with `Read` where the machine's count of read faults rose, with `NoRecord` where the log has no head, and with
    /// `Memory`.
    pub fn scan<M: Machine>(
        alloc: Global,
        machine: &mut M,
        geometry: &Super,
    ) -> Result<Ring, RingFault>
        requires { HasRing geometry.now (M.image machine.old) (M.sector_count machine.old) (M.read_faults machine.old) (M.reads machine.old) }
        ensures found { IfOk result (λ ring. IfSome (M.image machine.old) (λ x. RingHolds geometry.now.uuid (ring_of geometry.now x) ring)) }
        ensures none { IfErr result (λ fault. fault ≡ RingFault.NoRecord → IfSome (M.image machine.old) (λ x. HasNoHead geometry.now.uuid (ring_of geometry.now x))) }
        ensures cause { HasRingCause (M.read_faults machine.old) (M.read_faults machine.new) result }
        ensures log { HasRing geometry.now (M.image machine.new) (M.sector_count machine.new) (M.read_faults machine.new) (M.reads machine.new) }
        ensures only_read { MachineStays M.Machine machine.old machine.new }
    {
        let sectors = geometry.log_sectors();
        let Found { marks, outlines } = scan_log(alloc, machine, geometry)?;
        let Some(head) = find_head(alloc, &outlines, sectors)? else {
            return Err(RingFault::NoRecord);
        };
        let live = read_records(alloc, machine, geometry, &head.live)?;
        Ok(Ring {
            head_cycle: head.outline.cycle,
            next_cycle: cycle_after(&head.outline, sectors),
            next_sector: sector_after(&head.outline, sectors),
            free_sectors: free_beside(&head.outline, &head.live, sectors),
            live,
            marks,
        })
    }

    /// The cycle of the head.
    pub fn head_cycle(&self) -> u32
        ensures { result ≡ self.now.head_cycle }
    {
        self.head_cycle
    }

    /// The cycle of the record that is written next.
    pub fn next_cycle(&self) -> u32
        ensures { result ≡ self.now.next_cycle }
    {
        self.next_cycle
    }

    /// The ring sector at which the record begins that is written next.
    pub fn next_sector(&self) -> u32
        ensures { result ≡ self.now.next_sector }
    {
        self.next_sector
    }

    /// How many sectors of the ring hold none of the live records; where there are none, the head isn't counted either.
    pub fn free_sectors(&self) -> u32
        ensures { result ≡ self.now.free }
    {
        self.free_sectors
    }

    /// The live records in order, the last of them the head.
    pub fn live(&self) -> &[Record]
        ensures { result.now ≡ self.now.live }
    {
        &self.live
    }

    /// The ring sectors that begin with the magic of records, in rising order.
    pub fn marks(&self) -> &[u32]
        ensures { result.now ≡ self.now.marks }
    {
        &self.marks
    }
}

/// The cycle of the record behind the head: one more where it begins at the ring's first sector or past it.
fn cycle_after(head: &Outline, ring_sectors: u32) -> u32
    requires { head.now.cycle ≤ greatest_cycle }
    ensures { result ≡ (if nat_lt (head.now.sector + head.now.sectors) ring_sectors then head.now.cycle else head.now.cycle + 1) }
{
    if u64::from(head.sector) + u64::from(head.sectors) < u64::from(ring_sectors) {
        head.cycle
    } else {
        head.cycle + 1
    }
}

/// How many sectors the live records leave free, or the head where there are none.
fn free_beside(head: &Outline, live: &[Outline], ring_sectors: u32) -> u32
    ensures { result ≡ left_free ring_sectors head.now live.now }
{
    if live.is_empty() {
        return ring_sectors.saturating_sub(head.sectors);
    }
    let mut free = ring_sectors;
    for record in live {
        free = free.saturating_sub(record.sectors);
    }
    free
}
