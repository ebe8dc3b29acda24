ghost use Rattle.std.specs.Prelude.{◌≡◌, ◌<◌, ◌≤◌, ◌++◌, length, take, IfOk, OnOk, OnErr};
ghost use Rattle.xn_bytes.specs.Escapes.{stands_for_itself, hex_digit, escaped_byte, escaped};

use crate::Memory;
use std::alloc::AllocError;

/// Appends the text of bytes: those from 0x21 to 0x7e but `\` stand for themselves, every other is `\` and two
/// lower-case hexadecimal digits. The room is that of the vector's own allocator; without it nothing is appended.
pub fn escape(bytes: &[u8], out: &mut Vec<u8>) -> Result<(), Memory>
    ensures ok { OnOk result (out.new.items ≡ out.old.items ++ escaped bytes.now) }
    ensures err { OnErr result (out.new.items ≡ out.old.items) }
{
    let before = out.len();
    match escape_all(bytes, out) {
        Ok(()) => Ok(()),
        Err(_) => {
            out.truncate(before);
            Err(Memory)
        }
    }
}

fn escape_all(bytes: &[u8], out: &mut Vec<u8>) -> Result<(), AllocError>
    ensures ok { OnOk result (out.new.items ≡ out.old.items ++ escaped bytes.now) }
    ensures err { OnErr result (take (length out.old.items) out.new.items ≡ out.old.items) }
{
    let mut at = 0;
    while at < bytes.len() {
        at += escape_run(&bytes[at..], out)?;
    }
    Ok(())
}

/// Appends the text of the bytes at the front that stand for themselves, or else of the first byte, and answers of how
/// many bytes.
fn escape_run(bytes: &[u8], out: &mut Vec<u8>) -> Result<usize, AllocError>
    requires { 0 < length bytes.now }
    ensures some { IfOk result (λ run. (0 < run) × (run ≤ length bytes.now)) }
    ensures ok { IfOk result (λ run. out.new.items ≡ out.old.items ++ escaped (take run bytes.now)) }
    ensures err { OnErr result (out.new.items ≡ out.old.items) }
{
    let plain = plain_front(bytes);
    if plain == 0 {
        escape_byte(bytes[0], out)?;
        return Ok(1);
    }
    out.extend_from_slice(&bytes[..plain])?;
    Ok(plain)
}

/// How many bytes at the front stand for themselves.
fn plain_front(bytes: &[u8]) -> usize
    ensures within { result ≤ length bytes.now }
    ensures plain { escaped (take result bytes.now) ≡ take result bytes.now }
{
    for at in 0..bytes.len() {
        if !is_plain(bytes[at]) {
            return at;
        }
    }
    bytes.len()
}

fn escape_byte(byte: u8, out: &mut Vec<u8>) -> Result<(), AllocError>
    ensures ok { OnOk result (out.new.items ≡ out.old.items ++ escaped_byte byte) }
    ensures err { OnErr result (out.new.items ≡ out.old.items) }
{
    if is_plain(byte) {
        out.push(byte)?;
    } else {
        out.extend_from_slice(&[b'\\', digit(byte / 16), digit(byte % 16)])?;
    }
    Ok(())
}

/// Whether a byte stands for itself.
pub(crate) fn is_plain(byte: u8) -> bool
    ensures { result ≡ stands_for_itself byte }
{
    (0x21..=0x7e).contains(&byte) && byte != b'\\'
}

fn digit(n: u8) -> u8
    requires { n < 16 }
    ensures { result ≡ hex_digit n }
{
    if n < 10 { b'0' + n } else { b'a' + (n - 10) }
}
