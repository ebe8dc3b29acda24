//! A source in memory, whose calls fail where its maker says.

ghost use Rattle.std.specs.Prelude.{◌≡◌, ◌↔◌, ◌<◌, [], length, min, drop, take, IfOk, IsErr, OnErr};
ghost use Rattle.xn_bytes.specs.Causes.{HasCause, counted};
ghost use Rattle.xn_machine.specs.MemorySource.{IsNextListed};

use crate::{Failed, Source};
use std::marker::Model;

/// Bytes in memory, read from the first to the last. Its calls of `read` are numbered from 1, those that fail too.
#[derive(Drop)]
pub struct MemSource {
    bytes: Vec<u8>,
    // How many of the bytes were read.
    at: usize,
    fails: Vec<u64>,
    // How many calls were made, up to 2^64 - 1.
    made: u64,
    faults: u64,
}

impl Model for MemSource {
    ghost use Rattle.xn_machine.specs.MemorySource.{SourceState};

    ghost Value = { SourceState };

    ghost use Rattle.xn_machine.specs.MemorySourceFields.{source_of, IsWithin};

    ghost view = { source_of };

    ghost invariant = { IsWithin };
}

impl MemSource {
    /// A source of these bytes, of whose calls those fail whose numbers are listed. It takes no memory.
    pub fn new(bytes: Vec<u8>, fails: Vec<u64>) -> MemSource
        ensures { result ≡ record { left = bytes.items; fails = fails.items; made = 0; faults = 0 } }
    {
        MemSource {
            bytes,
            at: 0,
            fails,
            made: 0,
            faults: 0,
        }
    }
}

impl Source for MemSource {
    ghost use Rattle.std.specs.Prelude.{Some};

    ghost left = { λ s. Some s.left };

    ghost faults = { λ s. s.faults };

    fn read(&mut self, into: &mut [u8]) -> Result<usize, Failed>
        requires { 0 < length into.old }
        ensures exact { IsErr result ↔ IsNextListed self.old }
        ensures all { IfOk result (λ count. count ≡ min (length into.new) (length self.old.left)) }
        ensures front { IfOk result (λ count. take count into.new ≡ take count self.old.left) }
        ensures rest { IfOk result (λ count. self.new ≡ record self.old { left = drop count self.old.left; made = counted self.old.made }) }
        ensures end { IfOk result (λ count. (count ≡ 0) ↔ (self.old.left ≡ [])) }
        ensures err { OnErr result (self.new ≡ record self.old { made = counted self.old.made; faults = counted self.old.faults }) }
        ensures kept { OnErr result (into.new ≡ into.old) }
        ensures cause { HasCause self.old.faults self.new.faults result }
    {
        self.made = self.made.saturating_add(1);
        if self.fails.contains(&self.made) {
            self.faults = self.faults.saturating_add(1);
            return Err(Failed);
        }
        let count = into.len().min(self.bytes.len() - self.at);
        into[..count].copy_from_slice(&self.bytes[self.at..self.at + count]);
        self.at += count;
        Ok(count)
    }
}
