//! The trusted edge: what it does where signals interrupt it, and what it remembers of a fault.

use crate::files::{FileMachine, FileSource};
use std::fs::File;
use std::io::{ErrorKind, Read, Write};
use std::test::Fail;
use std::{fs, io};
use xn_machine::{Machine, Source};

/// A short form: parent 128, and the entry `a` to inode 131, a regular file.
const FORM_OF_ONE: &[u8; 15] = b"\x01\x00\x00\x00\x00\x80\x01\x00\x60a\x01\x00\x00\x00\x83";

/// A reader and a writer of one byte a call, to whom signals come before.
#[derive(Drop)]
struct Interrupted {
    signals: u32,
    written: u32,
}

impl Interrupted {
    fn meet_signal(&mut self) -> io::Result<()> {
        if self.signals == 0 {
            return Ok(());
        }
        self.signals -= 1;
        Err(io::Error::from(ErrorKind::Interrupted))
    }
}

impl Read for Interrupted {
    fn read(&mut self, buf: &mut [u8]) -> io::Result<usize> {
        self.meet_signal()?;
        let Some(first) = buf.first_mut() else {
            return Ok(0);
        };
        *first = b'x';
        Ok(1)
    }
}

impl Write for Interrupted {
    fn write(&mut self, buf: &[u8]) -> io::Result<usize> {
        self.meet_signal()?;
        if buf.is_empty() {
            return Ok(0);
        }
        self.written = self.written.saturating_add(1);
        Ok(1)
    }

    fn flush(&mut self) -> io::Result<()> {
        Ok(())
    }
}

#[test]
fn interrupted_calls_are_taken_up_again(rt: HostRuntime) -> Result<(), Fail> {
    let signals = 100;
    let mut source = FileSource::over(Interrupted {
        signals,
        written: 0,
    });
    let mut into = [0; 4];
    assert_eq!(rt; source.read(&mut into), Ok(1));
    assert_eq!(rt; into[0], b'x');
    let mut machine = FileMachine::<File, _>::without_file(Interrupted {
        signals,
        written: 0,
    });
    assert!(rt; machine.say(b"ok 11\n").is_ok());
    assert_eq!(rt; machine.output().written, 6);
    Ok(())
}

#[test]
fn what_is_written_is_read_back(rt: HostRuntime) -> Result<(), Fail> {
    let alloc = rt.alloc();
    fs::write(&rt, "two.img", &xn_make::image(alloc, FORM_OF_ONE)?)?;
    let file = File::options().read(true).write(true).open(&rt, "two.img")?;
    let mut machine = FileMachine::over(file, Vec::new(alloc))?;
    if machine.sectors() < 8 {
        return Err(Fail::from("the image is short"));
    }
    let mut into = [0; 1536];
    assert!(rt; machine.write(3, &[7; 1024]).is_ok());
    assert!(rt; machine.sync().is_ok());
    assert!(rt; machine.read(2, &mut into).is_ok());
    assert_eq!(rt; [into[511], into[512], into[1535]], [0, 7, 7]);
    fs::remove_file(&rt, "two.img")?;
    Ok(())
}

#[test]
fn a_fault_is_remembered(rt: HostRuntime) -> Result<(), Fail> {
    let alloc = rt.alloc();
    fs::write(&rt, "read-only.img", &xn_make::image(alloc, FORM_OF_ONE)?)?;
    let file = File::open(&rt, "read-only.img")?;
    let mut machine = FileMachine::over(file, Vec::new(alloc))?;
    if machine.sectors() < 8 {
        return Err(Fail::from("the image is short"));
    }
    assert!(rt; machine.write(3, &[7; 512]).is_err());
    // EBADF
    let reason = machine.write_faults.last.ok_or("it is remembered")?;
    assert_eq!(rt; reason.raw_os_error(), Some(9));
    assert!(rt; machine.read_faults.last.is_none());
    fs::remove_file(&rt, "read-only.img")?;
    Ok(())
}
