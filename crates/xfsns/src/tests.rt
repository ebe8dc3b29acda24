//! Tests of the program's one call, over machines in memory and over a file. Their tables are read as `xn_rows` says.

mod attributes;
mod checks;
mod directories;
mod edge;
mod forks;
mod lists;
mod manifests;
mod outside;
mod parents;
mod paths;
mod trees;
mod words;

use super::*;
use std::alloc::Global;
use std::process::Abort;
use std::test::Fail;
use xn_machine::MemMachine;
use xn_rows::Row;

/// As many calls as an answer takes here, and more.
const CALLS: u64 = 24;

const ROOM: u64 = 4096;

/// An exit status, and what is told.
#[derive(Debug, PartialEq, Eq, Drop)]
struct Answer {
    status: u8,
    told: String,
}

/// To what the words of a row are given.
#[derive(Clone, Copy, Debug)]
enum Asked {
    Program,
    /// The program, for more calls.
    Checker,
    /// The root directory, as a call of `Dir`.
    Root,
    /// The tree of the root, as a call of `Tree`.
    Tree,
}

/// Compares each row of a table with what is answered, and names the first that differs or is no row.
fn check_rows<R: Abort + AllocGlobal>(rt: &R, asked: Asked, table: &str, rows: &str) {
    for (number, line) in rows.lines().enumerate() {
        match answers(rt.alloc(), asked, line) {
            Ok(None) => {}
            Ok(Some((answer, wanted))) => {
                assert_eq!(rt; answer, wanted, "{table}, line {number}: {line}");
            }
            Err(_) => panic!(rt; "{table}, line {number} cannot be run: {line}"),
        }
    }
}

/// What is answered to the row that a line is, and what it wants.
fn answers(alloc: Global, asked: Asked, line: &str) -> Result<Option<(Answer, Answer)>, Fail> {
    let Some(row) = Row::read(line)? else {
        return Ok(None);
    };
    let wanted = Answer {
        status: row.status()?,
        told: row.told(alloc)?,
    };
    let answer = match asked {
        Asked::Program => run(alloc, &row, CALLS)?,
        Asked::Checker => run(alloc, &row, checks::CALLS)?,
        Asked::Root => directories::ask_root(alloc, &row, directories::CALLS)?,
        Asked::Tree => directories::ask_root(alloc, &row, CALLS)?,
    };
    Ok(Some((answer, wanted)))
}

/// Makes the one call over a machine in memory, with room for so many calls.
fn run(alloc: Global, row: &Row<'_>, calls: u64) -> Result<Answer, Fail> {
    let image = row.image(alloc)?;
    let mut machine = MemMachine::new(alloc, image, row.fails(alloc)?, None, calls, ROOM)?;
    let mut manifest = MemSource::new(row.manifest(alloc)?, Vec::new(alloc));
    let mut script = MemSource::new(Vec::new(alloc), Vec::new(alloc));
    let words = row.words(alloc)?;
    let status = xfsns(alloc, &words, &mut machine, &mut manifest, &mut script);
    let told = String::from_utf8(Vec::from_slice(alloc, machine.told())?)
        .ok()
        .ok_or("what is told is text")?;
    Ok(Answer {
        status: status.number(),
        told,
    })
}
