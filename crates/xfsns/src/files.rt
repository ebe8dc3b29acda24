//! The trusted edge: a machine over an open file and an output, and a source over a reader. They tell no content.

ghost use Rattle.std.specs.Prelude.{◌≡◌, ◌+◌, ◌*◌, ◌^◌, ◌<◌, ◌≤◌, length, IfOk, Ok};
ghost use Rattle.xn_bytes.specs.Causes.{HasCause};

use std::fs::OpenFile;
use std::io;
use std::io::{ErrorKind, Read, Seek, SeekFrom, Write};
use std::os::unix::fs::FileExt;
use xn_machine::{Failed, Machine, Source};

const SECTOR: u64 = 512;

/// How many calls of one kind failed, and why the last of them did.
#[derive(Drop)]
pub struct Faults {
    count: u64,
    pub last: Option<io::Error>,
    ghost small: { count < 2 ^ 64 },
}

impl Faults {
    fn none() -> Faults {
        Faults {
            count: 0,
            last: None,
        }
    }

    /// Counts the call if it failed, and remembers why.
    fn note<T>(&mut self, answer: io::Result<T>) -> Result<T, Failed>
        ensures value { IfOk result (λ value. answer ≡ Ok value) }
        ensures cause { HasCause self.old.count self.new.count result }
    {
        match answer {
            Ok(value) => Ok(value),
            Err(error) => {
                self.count = self.count.saturating_add(1);
                self.last = Some(error);
                Err(Failed)
            }
        }
    }
}

/// The device over an open file, if there is one, and an output.
#[derive(Drop)]
pub struct FileMachine<F: Drop, W: Drop> {
    file: Option<F>,
    output: W,
    sectors: u64,
    reads: u64,
    pub read_faults: Faults,
    pub write_faults: Faults,
    pub say_faults: Faults,
    ghost fits: { sectors * 512 < 2 ^ 64 },
    ghost counts: { reads < 2 ^ 64 },
}

impl<F: FileExt + Seek + OpenFile + Drop, W: Write + Drop> FileMachine<F, W> {
    /// The device over a file or a block device, with as many sectors as it has now.
    pub fn over(mut file: F, output: W) -> io::Result<FileMachine<F, W>> {
        let sectors = file.seek(SeekFrom::End(0))? / SECTOR;
        Ok(FileMachine::new(Some(file), output, sectors))
    }

    /// No device, but an output.
    pub fn without_file(output: W) -> FileMachine<F, W> {
        FileMachine::new(None, output, 0)
    }

    fn new(file: Option<F>, output: W, sectors: u64) -> FileMachine<F, W>
        requires { sectors * 512 < 2 ^ 64 }
    {
        FileMachine {
            file,
            output,
            sectors,
            reads: 0,
            read_faults: Faults::none(),
            write_faults: Faults::none(),
            say_faults: Faults::none(),
        }
    }

    /// What the output has become.
    #[cfg(test)]
    pub fn output(&self) -> &W {
        &self.output
    }
}

fn opened<F>(file: &Option<F>) -> io::Result<&F> {
    file.as_ref().ok_or(io::Error::from(ErrorKind::NotFound))
}

fn read_at<F: FileExt>(file: &Option<F>, sector: u64, into: &mut [u8]) -> io::Result<()>
    requires { sector * 512 < 2 ^ 64 }
{
    opened(file)?.read_exact_at(into, sector * SECTOR)
}

fn write_at<F: FileExt>(file: &Option<F>, sector: u64, bytes: &[u8]) -> io::Result<()>
    requires { sector * 512 < 2 ^ 64 }
{
    opened(file)?.write_all_at(bytes, sector * SECTOR)
}

fn sync<F: OpenFile>(file: &Option<F>) -> io::Result<()> {
    opened(file)?.sync_all()
}

/// Writes all bytes, however often signals interrupt it.
fn write_whole<W: Write>(output: &mut W, bytes: &[u8]) -> io::Result<()> {
    let mut rest = bytes;
    for _ in 0..u64::MAX {
        if rest.is_empty() {
            return output.flush();
        }
        match output.write(rest) {
            Ok(0) => return Err(io::Error::from(ErrorKind::WriteZero)),
            Ok(count) => rest = &rest[count..],
            Err(error) if error.kind() == ErrorKind::Interrupted => {}
            Err(error) => return Err(error),
        }
    }
    Err(io::Error::from(ErrorKind::TimedOut))
}

/// Reads once, and again where a signal interrupts it.
fn read_some<R: Read>(input: &mut R, into: &mut [u8]) -> io::Result<usize>
    ensures { IfOk result (λ count. count ≤ length into.new) }
{
    for _ in 0..u64::MAX {
        match input.read(into) {
            Err(error) if error.kind() == ErrorKind::Interrupted => {}
            answer => return answer,
        }
    }
    Err(io::Error::from(ErrorKind::TimedOut))
}

impl<F: FileExt + Seek + OpenFile + Drop, W: Write + Drop> Machine for FileMachine<F, W> {
    ghost use Rattle.std.specs.Prelude.{None};

    ghost image = { λ _. None };

    ghost told = { λ _. None };

    ghost sector_count = { λ m. m.sectors };

    ghost read_faults = { λ m. m.read_faults.count };

    ghost write_faults = { λ m. m.write_faults.count };

    ghost say_faults = { λ m. m.say_faults.count };

    ghost reads = { λ m. m.reads };

    fn sectors(&self) -> u64 {
        self.sectors
    }

    fn read(&mut self, sector: u64, into: &mut [u8]) -> Result<(), Failed> {
        self.reads = self.reads.saturating_add(1);
        self.read_faults.note(read_at(&self.file, sector, into))
    }

    fn write(&mut self, sector: u64, bytes: &[u8]) -> Result<(), Failed> {
        self.write_faults.note(write_at(&self.file, sector, bytes))
    }

    fn sync(&mut self) -> Result<(), Failed> {
        self.write_faults.note(sync(&self.file))
    }

    fn say(&mut self, bytes: &[u8]) -> Result<(), Failed> {
        self.say_faults.note(write_whole(&mut self.output, bytes))
    }
}

/// A source over a reader.
#[derive(Drop)]
pub struct FileSource<R: Drop> {
    input: R,
    pub faults: Faults,
}

impl<R: Read + Drop> FileSource<R> {
    pub fn over(input: R) -> FileSource<R> {
        FileSource {
            input,
            faults: Faults::none(),
        }
    }
}

impl<R: Read + Drop> Source for FileSource<R> {
    ghost use Rattle.std.specs.Prelude.{None};

    ghost left = { λ _. None };

    ghost faults = { λ s. s.faults.count };

    fn read(&mut self, into: &mut [u8]) -> Result<usize, Failed> {
        self.faults.note(read_some(&mut self.input, into))
    }
}
