ghost use Rattle.std.specs.Prelude.{◌≡◌, List};
ghost use Rattle.xn_log.specs.declared.operation.Op.{Op};

use std::marker::Model;
use xn_bytes::Bytes;

/// An operation of a record (`struct xlog_op_header` of Linux's `xfs_log_format.h`), with the bytes behind its header.
#[derive(Debug, Drop)]
pub struct Op {
    /// The transaction that it belongs to.
    pub tid: u32,
    /// Who wrote it: 0x69 for a transaction, 0xaa for the log itself.
    pub client: u8,
    /// Start 1, commit 2, continue 4, was-continued 8, end 16, unmount 32.
    pub flags: u8,
    pub bytes: Bytes,
}

/// Operations, one behind the other. Contracts see their list.
#[derive(Debug, Drop)]
pub struct Ops {
    ops: Vec<Op>,
}

impl Model for Ops {
    ghost Value = { List Op };

    ghost view = { λ o. o.ops.items };
}

impl Ops {
    /// These operations. It takes no memory.
    pub fn new(ops: Vec<Op>) -> Ops
        ensures { result ≡ ops.items }
    {
        Ops { ops }
    }

    pub fn as_slice(&self) -> &[Op]
        ensures { result.now ≡ self.now }
    {
        &self.ops
    }

    /// The vector that the operations stand in. It takes no memory.
    pub fn into_vec(self) -> Vec<Op>
        ensures { result.items ≡ self }
    {
        self.ops
    }
}
