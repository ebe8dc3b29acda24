//! `xn_show IMAGE INO` prints a directory of an image as its entries stand, and looks each of its names up again. `xn_show IMAGE log`
//! prints what stands in the image's log.
//!
//! The image is read whole. Of a directory is shown what the home sectors hold, and its log is not looked at. The text is `parent P`,
//! then `POSITION HASH INO KIND NAME` for each entry, and `looked up N` where each of the N names is found as it was listed.
//!
//! The text of a log is `head CYCLE next CYCLE SECTOR free N marks M`: the cycle of its head, cycle and ring sector of the record that
//! would be written next, how many sectors are free, and how many begin as a record does. Then `record SECTOR CYCLE TAIL OPS` for each
//! live record, TAIL being a sequence number and OPS how many operations it has; or `no record` where the log has no head.
#![tactic(auto)]

mod ending;
mod home;
mod log;
mod shown;

use anyhow::{Context, Result};
use ending::Ending;
use std::io::Write;
use std::process::ExitCode;
use std::{env, fs, io};
use xn_machine::MemMachine;

const SECTOR: usize = 512;

/// How many reads there is room for: those of the list, and those of a look-up of each name; or those of the log.
const READS: u64 = 100_000;

/// What is to be shown.
#[derive(Clone, Copy, Debug, PartialEq, Eq)]
enum Asked {
    /// The directory with this inode.
    Directory(u64),
    Log,
}

fn main(rt: HostRuntime) -> ExitCode {
    match run(&rt) {
        Ok(ending) => ExitCode::from(ending.status()),
        Err(error) => {
            // Nobody is left to tell that this line could not be told.
            let _ = eprintln!(rt; "{error:#}");
            ExitCode::from(Ending::Fault.status())
        }
    }
}

/// Reads the image that the words name, and prints what they ask for.
fn run(rt: &HostRuntime) -> Result<Ending> {
    let alloc = rt.alloc();
    let Some((path, asked)) = words(rt)? else {
        println!(rt; "usage")?;
        return Ok(Ending::Failed);
    };
    let mut image = fs::read(rt, path.as_str()).context("reading the image")?;
    image.truncate(image.len() / SECTOR * SECTOR);
    let mut machine = MemMachine::new(alloc, image, Vec::new(alloc), None, READS, 0)
        .ok()
        .context("making room for the image")?;
    let (ending, text) = match asked {
        Asked::Directory(ino) => shown::answer(alloc, &mut machine, ino)?,
        Asked::Log => log::answer(alloc, &mut machine)?,
    };
    io::writer(rt).write_all(&text)?;
    Ok(ending)
}

/// The image's path, and what is to be shown of it; None where there are other words.
fn words(rt: &HostRuntime) -> Result<Option<(String, Asked)>> {
    let mut words = env::args(rt)?.skip(1);
    let (Some(path), Some(word), None) = (words.next(), words.next(), words.next()) else {
        return Ok(None);
    };
    if word.as_str() == "log" {
        return Ok(Some((path, Asked::Log)));
    }
    match word.as_str().parse() {
        Ok(ino) => Ok(Some((path, Asked::Directory(ino)))),
        Err(_) => Ok(None),
    }
}
