//! Calls on a machine and on a source as rows of text.

use std::alloc::Global;
use std::test::Fail;
use xn_machine::{Failed, Machine, MemMachine, MemSource, Source};

/// Which calls fail, before which one the machine stops, how many calls and bytes there is room for, the calls, and what each
/// gives: the byte of which a sector is full, or whether the call succeeded. `told` and `image` are no calls of the device.
const CALLS: &str = r"
| | 5 514 | write:7 read:1 read:0 sync: say:ok told: image: | true 7 1 true true ok 1,7
| | 5 523 | write:7 read:0 sync: say:aaaaaaaaaa say:b | true 1 true true true
4 2 | | 5 523 | write:7 read:0 sync: say:aaaaaaaaaa say:b | true false true false true
1 | | 5 11 | write:7 read:0 sync: say:aaaaaaaaaa say:b | false 1 true true true
| 3 | 5 523 | write:7 read:0 sync: say:aaaaaaaaaa say:b | true 1 true false false
| 0 | 5 523 | write:7 read:0 sync: say:aaaaaaaaaa say:b | false false false false false
| | 4 523 | write:7 read:0 sync: say:aaaaaaaaaa say:b | true 1 true true false
| | 5 521 | write:7 read:0 sync: say:aaaaaaaaaa say:b | true 1 true false true
";

/// What is told of the row that a line is, and what it wants.
fn told(alloc: Global, line: &str) -> Result<(String, &str), Fail> {
    let (failing, rest) = line.split_once('|').ok_or("which fail")?;
    let (stop, rest) = rest.split_once('|').ok_or("where it stops")?;
    let (room, rest) = rest.split_once('|').ok_or("the room")?;
    let (calls, wanted) = rest.split_once('|').ok_or("the calls")?;
    let mut machine = machine_of(alloc, failing, stop.trim(), room.trim())?;
    Ok((calls_told(alloc, &mut machine, calls)?, wanted.trim()))
}

/// A machine whose first sector holds 1 everywhere, and whose second 2.
fn machine_of(alloc: Global, failing: &str, stop: &str, room: &str) -> Result<MemMachine, Fail> {
    let mut fails = Vec::new(alloc);
    for call in failing.split_whitespace() {
        fails.push(call.parse()?)?;
    }
    let stop = match stop {
        "" => None,
        call => Some(call.parse()?),
    };
    let (calls, bytes) = room.split_once(' ').ok_or("two numbers")?;
    let mut image = vec![in alloc; 1u8; 512]?;
    image.extend_from_slice(&[2; 512])?;
    Ok(MemMachine::new(alloc, image, fails, stop, calls.parse()?, bytes.parse()?)?)
}

/// Makes the calls, and tells what each gives.
fn calls_told(alloc: Global, machine: &mut MemMachine, calls: &str) -> Result<String, Fail> {
    let mut told = String::new(alloc);
    for word in calls.split_whitespace() {
        let (name, given) = word.split_once(':').ok_or("a call")?;
        if !told.is_empty() {
            told.push_str(" ")?;
        }
        told.push_str(&call_told(alloc, machine, name, given)?)?;
    }
    Ok(told)
}

fn call_told(
    alloc: Global,
    machine: &mut MemMachine,
    name: &str,
    given: &str,
) -> Result<String, Fail> {
    if machine.sectors() != 2 {
        return Err(Fail::from("the sectors have changed"));
    }
    let result = match name {
        "read" => return read_told(alloc, machine, given),
        "told" => return Ok(String::from_str(alloc, str::from_utf8(machine.told())?)?),
        "image" => return image_told(alloc, machine.image()),
        "write" => machine.write(1, &[given.parse()?; 512]),
        "sync" => machine.sync(),
        "say" => machine.say(given.as_bytes()),
        _ => return Err(Fail::from("a call")),
    };
    Ok(format!(in alloc; "{}", result.is_ok())?)
}

fn read_told(alloc: Global, machine: &mut MemMachine, sector: &str) -> Result<String, Fail> {
    let sector = sector.parse()?;
    if sector >= machine.sectors() {
        return Err(Fail::from("a sector"));
    }
    let mut into = [0; 512];
    match machine.read(sector, &mut into) {
        Ok(()) => Ok(format!(in alloc; "{}", only_byte(&into)?)?),
        Err(Failed) => Ok(String::from_str(alloc, "false")?),
    }
}

fn image_told(alloc: Global, image: &[u8]) -> Result<String, Fail> {
    if image.len() != 1024 {
        return Err(Fail::from("two sectors"));
    }
    let first = only_byte(image.get(..512).ok_or("a sector")?)?;
    let second = only_byte(image.get(512..).ok_or("a sector")?)?;
    Ok(format!(in alloc; "{first},{second}")?)
}

/// The byte that each of them is.
fn only_byte(bytes: &[u8]) -> Result<u8, Fail> {
    let first = bytes.first().ok_or("a byte")?;
    for byte in bytes {
        if byte != first {
            return Err(Fail::from("bytes that differ"));
        }
    }
    Ok(*first)
}

#[test]
fn machine_does_and_fails_what_it_is_to(rt: HostRuntime) {
    for line in CALLS.lines().skip(1) {
        match told(rt.alloc(), line) {
            Ok((told, wanted)) => assert_eq!(rt; told.as_str(), wanted, "{line}"),
            Err(_) => panic!(rt; "no row: {line}"),
        }
    }
}

/// What so many reads of four bytes take.
fn takes(alloc: Global, source: &mut MemSource, reads: u8) -> Result<String, Fail> {
    let mut told = String::new(alloc);
    for _ in 0..reads {
        let mut into = [0; 4];
        match source.read(&mut into) {
            Ok(count) => told.push_str(str::from_utf8(&into[..count])?)?,
            Err(Failed) => told.push_str("failed")?,
        }
        told.push_str(";")?;
    }
    Ok(told)
}

#[test]
fn source_gives_its_bytes(rt: HostRuntime) -> Result<(), Fail> {
    let alloc = rt.alloc();
    let bytes = Vec::from_slice(alloc, b"abcdef")?;
    let mut source = MemSource::new(bytes, Vec::from_slice(alloc, &[2])?);
    assert_eq!(rt; takes(alloc, &mut source, 4)?.as_str(), "abcd;failed;ef;;");
    Ok(())
}
