//! The operations of a record, each with its bytes.

ghost use Rattle.std.specs.Prelude.{◌≡◌, ◌≤◌, IsTrue, IfOk, length};
ghost use Rattle.xn_log.specs.Records.{are_whole, body_of, count_in, operation_in, operation_size, operations_in};
ghost use Rattle.xn_record.specs.Checks.{HasBody};

use crate::field::{SECTOR, body_sectors, count_in, length_in};
use std::alloc::Global;
use xn_bytes::{Bytes, Memory, u8_at, u32_at};
use xn_log::{Op, Ops};

/// The operations in the body of a record.
pub(crate) fn operations_of(alloc: Global, bytes: &[u8]) -> Result<Ops, Memory>
    requires body { HasBody bytes.now }
    requires whole { IsTrue (are_whole (count_in bytes.now) (body_of bytes.now)) }
    ensures { IfOk result (λ ops. ops ≡ operations_in (count_in bytes.now) (body_of bytes.now)) }
{
    let body = restored_body(alloc, bytes)?;
    Ok(Ops::new(read_operations(alloc, count_in(bytes), &body)?))
}

/// The used bytes of the body, with the words put back that the stamps stand for.
fn restored_body(alloc: Global, bytes: &[u8]) -> Result<Vec<u8>, Memory>
    requires { HasBody bytes.now }
    ensures { IfOk result (λ body. body.items ≡ body_of bytes.now) }
{
    let length = length_in(bytes);
    let sectors = body_sectors(length) as usize;
    let mut body = Vec::with_capacity(alloc, SECTOR * sectors)?;
    for index in 0..sectors {
        let stamp_at = SECTOR + SECTOR * index;
        body.extend_from_slice(&bytes[44 + 4 * index..48 + 4 * index])?;
        body.extend_from_slice(&bytes[stamp_at + 4..stamp_at + SECTOR])?;
    }
    body.truncate(length as usize);
    Ok(body)
}

/// So many operations from the front of a body on.
fn read_operations(alloc: Global, count: u32, body: &[u8]) -> Result<Vec<Op>, Memory>
    requires { IsTrue (are_whole count body.now) }
    ensures { IfOk result (λ ops. ops.items ≡ operations_in count body.now) }
{
    let mut ops = Vec::new(alloc);
    let mut rest = body;
    for _ in 0..count {
        ops.push(read_operation(alloc, rest)?)?;
        let (_, behind) = rest.split_at(operation_size(rest));
        rest = behind;
    }
    Ok(ops)
}

/// How many bytes the operation at the front takes, its header of 12 bytes among them.
fn operation_size(body: &[u8]) -> usize
    requires { 12 ≤ length body.now }
    ensures { result ≡ operation_size body.now }
{
    12 + u32_at(body, 4) as usize
}

/// The operation at the front.
fn read_operation(alloc: Global, body: &[u8]) -> Result<Op, Memory>
    requires header { 12 ≤ length body.now }
    requires whole { operation_size body.now ≤ length body.now }
    ensures { IfOk result (λ op. op ≡ operation_in body.now) }
{
    Ok(Op {
        tid: u32_at(body, 0),
        client: u8_at(body, 8),
        flags: u8_at(body, 9),
        bytes: Bytes::new(body[12..operation_size(body)].to_vec(alloc)?),
    })
}
