//! Logs of machines whose superblock is read first.

use std::alloc::Global;
use xn_inode::Super;
use xn_machine::Machine;
use xn_ring::{Ring, RingFault};

/// Scans the log of a machine, or answers nothing where its superblock can't be read or is not accepted.
pub fn scan<M: Machine>(alloc: Global, machine: &mut M) -> Option<Result<Ring, RingFault>> {
    let sectors = machine.sectors();
    if sectors == 0 {
        return None;
    }
    let mut sector = [0; 512];
    if machine.read(0, &mut sector).is_err() {
        return None;
    }
    match Super::read(&sector, sectors) {
        Ok(geometry) => Some(Ring::scan(alloc, machine, &geometry)),
        Err(_) => None,
    }
}
