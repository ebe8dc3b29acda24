//! The text of a log.

use crate::ending::Ending;
use crate::home::home_of;
use std::alloc::{AllocError, Global};
use xn_log::Record;
use xn_machine::Machine;
use xn_ring::{Ring, RingFault};

/// The text of the log of the machine's image, and how the run ends with it.
pub fn answer<M: Machine>(alloc: Global, machine: &mut M) -> Result<(Ending, Vec<u8>), AllocError> {
    let mut text = Vec::new(alloc);
    let Some(view) = home_of(alloc, machine) else {
        text.extend_from_slice(b"no superblock\n")?;
        return Ok((Ending::Broken, text));
    };
    let ending = match Ring::scan(alloc, machine, view.geometry()) {
        Ok(ring) => {
            push_ring(alloc, &ring, &mut text)?;
            Ending::Shown
        }
        Err(fault) => push_fault(fault, &mut text)?,
    };
    Ok((ending, text))
}

/// Appends the line of the head, and one for each live record.
fn push_ring(alloc: Global, ring: &Ring, text: &mut Vec<u8>) -> Result<(), AllocError> {
    let head = ring.head_cycle();
    let cycle = ring.next_cycle();
    let sector = ring.next_sector();
    let free = ring.free_sectors();
    let marks = ring.marks().len();
    let line = format!(in alloc; "head {head} next {cycle} {sector} free {free} marks {marks}\n")?;
    text.extend_from_slice(line.as_bytes())?;
    for live in ring.live() {
        push_record(alloc, live, text)?;
    }
    Ok(())
}

/// Appends the line of a live record.
fn push_record(alloc: Global, live: &Record, text: &mut Vec<u8>) -> Result<(), AllocError> {
    let sector = live.sector;
    let cycle = live.cycle;
    let tail = live.tail;
    let ops = live.ops.as_slice().len();
    let line = format!(in alloc; "record {sector} {cycle} {tail} {ops}\n")?;
    text.extend_from_slice(line.as_bytes())?;
    Ok(())
}

/// Appends why a log can't be shown.
fn push_fault(fault: RingFault, text: &mut Vec<u8>) -> Result<Ending, AllocError> {
    let (ending, line): (Ending, &[u8]) = match fault {
        RingFault::NoRecord => (Ending::Broken, b"no record\n"),
        RingFault::Read => (Ending::Fault, b"read fault\n"),
        RingFault::Memory => (Ending::Fault, b"no memory\n"),
    };
    text.extend_from_slice(line)?;
    Ok(ending)
}
