//! A machine in memory, whose calls fail where its maker says, and which keeps a record of those that succeed.

ghost use Rattle.std.specs.Prelude.{◌≡◌, ◌↔◌, ◌<◌, ◌%◌, length, IfOk, IsErr, IsTrue, OnOk, OnErr, Contains};
ghost use Rattle.xn_bytes.specs.Causes.{HasCause};
ghost use Rattle.xn_machine.specs.Device.{IsSectors, read_from};
ghost use Rattle.xn_machine.specs.Memory.{fresh, IsRecorded, IsOver, FailsNext, FailsNextWith, after_read, after_write, after_sync, after_say, after_failed_read, after_failed_write, after_failed_say};

use crate::{Failed, Machine};
use std::alloc::Global;
use std::marker::Model;
use xn_bytes::Memory;

/// A call that succeeded. The bytes that it wrote or told stand in a list of the machine, behind those of earlier calls.
#[derive(Clone, Copy, Debug, PartialEq, Eq)]
enum Call {
    Read,
    Write { sector: u64, length: usize },
    Sync,
    Say { length: usize },
}

/// A machine in memory, which tells its sectors and its output.
///
/// Its calls of `read`, `write`, `sync` and `say` are numbered from 1, those that fail too. It keeps a record of those
/// that succeed, which with its first image gives the image and the output as they were at each earlier moment.
#[derive(Drop)]
pub struct MemMachine {
    original: Vec<u8>,
    image: Vec<u8>,
    told: Vec<u8>,
    // The record: the calls that succeeded, in order, and the bytes of those that wrote, one after another.
    done: Vec<Call>,
    written: Vec<u8>,
    fails: Vec<u64>,
    stop: Option<u64>,
    calls: u64,
    // How many bytes may yet be written and told.
    room: u64,
    // How many calls were made.
    made: u64,
    reads: u64,
    read_faults: u64,
    write_faults: u64,
    say_faults: u64,
}

impl Model for MemMachine {
    ghost use Rattle.xn_machine.specs.Memory.{MachineState};

    ghost Value = { MachineState };

    ghost use Rattle.xn_machine.specs.MemoryFields.{state_of, IsSound};

    ghost view = { state_of };

    ghost invariant = { IsSound };
}

fn is_listed(numbers: &[u64], number: u64) -> bool
    ensures { IsTrue result ↔ Contains numbers.now number }
{
    numbers.contains(&number)
}

impl MemMachine {
    /// A machine with this image of whole sectors. It takes all its memory here.
    ///
    /// `fails` lists the numbers of calls that fail, and no call succeeds after the one numbered `stop`. The record has
    /// room for `calls` calls and for `bytes` bytes written and told together, and calls past either fail.
    pub fn new(
        alloc: Global,
        image: Vec<u8>,
        fails: Vec<u64>,
        stop: Option<u64>,
        calls: u64,
        bytes: u64,
    ) -> Result<MemMachine, Memory>
        requires { length image.items % 512 ≡ 0 }
        ensures { IfOk result (λ machine. machine ≡ fresh image.items fails.items stop calls bytes) }
    {
        let original = image.to_vec(alloc)?;
        Ok(MemMachine {
            original,
            image,
            told: Vec::with_capacity(alloc, bytes as usize)?,
            done: Vec::with_capacity(alloc, calls as usize)?,
            written: Vec::with_capacity(alloc, bytes as usize)?,
            fails,
            stop,
            calls,
            room: bytes,
            made: 0,
            reads: 0,
            read_faults: 0,
            write_faults: 0,
            say_faults: 0,
        })
    }

    /// The bytes of all sectors, to which the record leads from the first image.
    pub fn image(&self) -> &[u8]
        ensures value { result.now ≡ self.now.image }
        ensures recorded { IsRecorded self.now }
    {
        &self.image
    }

    /// The bytes told so far.
    pub fn told(&self) -> &[u8]
        ensures { result.now ≡ self.now.told }
    {
        &self.told
    }

    // Whether every call from now on fails.
    fn is_over(&self) -> bool
        ensures { IsTrue result ↔ IsOver self.now }
    {
        self.made >= self.calls || self.stop.is_some_and(|stop| stop <= self.made)
    }

    // Whether the next call fails for its number.
    fn fails_next(&self) -> bool
        ensures { IsTrue result ↔ FailsNext self.now }
    {
        self.is_over() || is_listed(&self.fails, self.made + 1)
    }

    // Whether the next call fails, which is to write or tell so many bytes.
    fn fails_next_with(&self, bytes: usize) -> bool
        ensures { IsTrue result ↔ FailsNextWith self.now bytes }
    {
        self.fails_next() || self.room < bytes as u64
    }
}

impl Machine for MemMachine {
    ghost use Rattle.std.specs.Prelude.{Some, ◌/◌};

    ghost image = { λ m. Some m.image };

    ghost told = { λ m. Some m.told };

    ghost sector_count = { λ m. length m.image / 512 };

    ghost read_faults = { λ m. m.read_faults };

    ghost write_faults = { λ m. m.write_faults };

    ghost say_faults = { λ m. m.say_faults };

    ghost reads = { λ m. m.reads };

    fn sectors(&self) -> u64 {
        self.image.len() as u64 / 512
    }

    fn read(&mut self, sector: u64, into: &mut [u8]) -> Result<(), Failed>
        requires { IsSectors (length self.old.image / 512) sector (length into.old) }
        ensures exact { IsErr result ↔ FailsNext self.old }
        ensures sectors { OnOk result (into.new ≡ read_from self.old.image sector (length into.old)) }
        ensures ok { OnOk result (self.new ≡ after_read self.old) }
        ensures kept { OnErr result (into.new ≡ into.old) }
        ensures err { OnErr result (self.new ≡ after_failed_read self.old) }
        ensures cause { HasCause self.old.read_faults self.new.read_faults result }
    {
        let fails = self.fails_next();
        self.made = self.made.saturating_add(1);
        self.reads = self.reads.saturating_add(1);
        if fails {
            self.read_faults = self.read_faults.saturating_add(1);
            return Err(Failed);
        }
        let start = sector as usize * 512;
        into.copy_from_slice(&self.image[start..start + into.len()]);
        self.done.push(Call::Read).unwrap();
        Ok(())
    }

    fn write(&mut self, sector: u64, bytes: &[u8]) -> Result<(), Failed>
        requires { IsSectors (length self.old.image / 512) sector (length bytes.now) }
        ensures exact { IsErr result ↔ FailsNextWith self.old (length bytes.now) }
        ensures ok { OnOk result (self.new ≡ after_write self.old sector bytes.now) }
        ensures err { OnErr result (self.new ≡ after_failed_write self.old) }
        ensures cause { HasCause self.old.write_faults self.new.write_faults result }
    {
        let fails = self.fails_next_with(bytes.len());
        self.made = self.made.saturating_add(1);
        if fails {
            self.write_faults = self.write_faults.saturating_add(1);
            return Err(Failed);
        }
        let start = sector as usize * 512;
        self.image[start..start + bytes.len()].copy_from_slice(bytes);
        self.room -= bytes.len() as u64;
        self.written.extend_from_slice(bytes).unwrap();
        let call = Call::Write {
            sector,
            length: bytes.len(),
        };
        self.done.push(call).unwrap();
        Ok(())
    }

    fn sync(&mut self) -> Result<(), Failed>
        ensures exact { IsErr result ↔ FailsNext self.old }
        ensures ok { OnOk result (self.new ≡ after_sync self.old) }
        ensures err { OnErr result (self.new ≡ after_failed_write self.old) }
        ensures cause { HasCause self.old.write_faults self.new.write_faults result }
    {
        let fails = self.fails_next();
        self.made = self.made.saturating_add(1);
        if fails {
            self.write_faults = self.write_faults.saturating_add(1);
            return Err(Failed);
        }
        self.done.push(Call::Sync).unwrap();
        Ok(())
    }

    fn say(&mut self, bytes: &[u8]) -> Result<(), Failed>
        ensures exact { IsErr result ↔ FailsNextWith self.old (length bytes.now) }
        ensures ok { OnOk result (self.new ≡ after_say self.old bytes.now) }
        ensures err { OnErr result (self.new ≡ after_failed_say self.old) }
        ensures cause { HasCause self.old.say_faults self.new.say_faults result }
    {
        let fails = self.fails_next_with(bytes.len());
        self.made = self.made.saturating_add(1);
        if fails {
            self.say_faults = self.say_faults.saturating_add(1);
            return Err(Failed);
        }
        self.room -= bytes.len() as u64;
        self.told.extend_from_slice(bytes).unwrap();
        self.done
            .push(Call::Say {
                length: bytes.len(),
            })
            .unwrap();
        Ok(())
    }
}
