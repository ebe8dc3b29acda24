//! `xfsns` reads the names of an XFS version 5 image: `xfsns list IMAGE MANIFEST INO` lists a directory,
//! `xfsns resolve IMAGE MANIFEST PATH` walks a path from the root, `xfsns parents IMAGE MANIFEST INO` tells the entries that
//! name an inode, and `xfsns check IMAGE MANIFEST` tells which rule is broken first, or that all hold.
#![tactic(auto)]

mod answer;
mod complaints;
mod files;
mod home;
mod manifest;
mod top;

use complaints::{cannot_open, explain};
use files::{FileMachine, FileSource};
use std::env::Env;
use std::fs::{File, Files};
use std::io::ErrorKind;
use std::process::ExitCode;
use std::{env, io};
use top::xfsns;
use xn_machine::MemSource;
use xn_meaning::Status;
use xn_text::{Words, WordsFault};

/// The exit status where a file can't be opened.
const CANNOT_OPEN: u8 = 10;

fn main(rt: HostRuntime) -> ExitCode {
    ExitCode::from(run(&rt))
}

/// Opens what the words name and makes the program's one call.
fn run<R: Env + Files<File = File> + Input + Print + Eprint + AllocGlobal>(rt: &R) -> u8 {
    let Ok(words) = arguments(rt) else {
        return end_without_memory(rt);
    };
    match Words::read(rt.alloc(), &words) {
        Ok(_) => run_on_files(rt, &words),
        Err(WordsFault::Usage) => run_without_files(rt, &words),
        Err(WordsFault::Memory) => end_without_memory(rt),
    }
}

/// The words after the program's name; none where one of them is no text.
fn arguments<R: Env + AllocGlobal>(rt: &R) -> io::Result<Vec<String>> {
    let mut words = Vec::new(rt.alloc());
    match env::args(rt) {
        Ok(all) => {
            for word in all.skip(1) {
                words.push(word)?;
            }
            Ok(words)
        }
        Err(error) if error.kind() == ErrorKind::InvalidData => Ok(words),
        Err(error) => Err(error),
    }
}

fn end_without_memory<R: Eprint>(rt: &R) -> u8 {
    explain(rt, Status::Memory, &[], None);
    Status::Memory.number()
}

fn run_without_files<R: Print + Eprint + AllocGlobal>(rt: &R, words: &[String]) -> u8 {
    let alloc = rt.alloc();
    let mut machine = FileMachine::<File, _>::without_file(io::writer(rt));
    let mut manifest = MemSource::new(Vec::new(alloc), Vec::new(alloc));
    let mut script = MemSource::new(Vec::new(alloc), Vec::new(alloc));
    let status = xfsns(alloc, words, &mut machine, &mut manifest, &mut script);
    explain(rt, status, &[], machine.say_faults.last);
    status.number()
}

/// The words are a form with IMAGE and MANIFEST as its second and third word.
fn run_on_files<R: Files<File = File> + Input + Print + Eprint + AllocGlobal>(
    rt: &R,
    words: &[String],
) -> u8 {
    let [_, image, manifest, ..] = words else {
        return run_without_files(rt, words);
    };
    let mut machine = match open_image(rt, image) {
        Ok(machine) => machine,
        Err(reason) => return end_unopened(rt, image, reason),
    };
    let mut source = match File::open(rt, manifest.as_str()) {
        Ok(file) => FileSource::over(file),
        Err(reason) => return end_unopened(rt, manifest, reason),
    };
    let mut script = FileSource::over(rt.reader());
    let status = xfsns(rt.alloc(), words, &mut machine, &mut source, &mut script);
    let reads = [
        (image.as_str(), machine.read_faults.last),
        (manifest.as_str(), source.faults.last),
        ("standard input", script.faults.last),
    ];
    explain(rt, status, &reads, machine.say_faults.last);
    status.number()
}

fn open_image<'a, R: Files<File = File> + Print>(
    rt: &'a R,
    image: &str,
) -> io::Result<FileMachine<File, io::Printer<'a, R>>> {
    FileMachine::over(File::open(rt, image)?, io::writer(rt))
}

fn end_unopened<R: Eprint>(rt: &R, word: &str, reason: io::Error) -> u8 {
    cannot_open(rt, word, reason);
    CANNOT_OPEN
}

#[cfg(test)]
mod tests;
