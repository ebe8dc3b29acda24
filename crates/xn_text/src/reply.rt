ghost use Rattle.std.specs.Prelude.{◌≡◌, ◌++◌, OnOk, OnErr, length, take};
ghost use Rattle.xn_meaning.specs.Replies.{reply_text, Plain, EntryOf, ListOf, ParentsOf, ErrorOf};
ghost use Rattle.xn_text.specs.Viewed.{lines_of, parents_of, reply_of};

use crate::row::write_rows;
use crate::{Lines, ListLine, ParentLine, ParentLines};
use std::alloc::Global;
use xn_bytes::{Kind, Memory};
use xn_meaning::Errno;

/// What a command answers.
#[derive(Debug, Drop)]
pub enum Reply {
    /// The command is done.
    Ok,
    /// The inode that a name or a path leads to, and its kind.
    Entry { ino: u64, kind: Kind },
    /// The entries of a directory.
    List(Lines),
    /// The entries that name an inode.
    Parents(ParentLines),
    /// The command is refused.
    Error(Errno),
}

impl Reply {
    /// Appends the reply's text: `ok`, `ok INO KIND`, `ok COUNT` and a line `INO KIND NAME` for each entry or
    /// `DIR GENERATION NAME` for each parent, or `error NUMBER NAME`. Numbers are decimal, names escaped, and each line ends
    /// with a newline. Without memory nothing is appended.
    pub fn write(&self, alloc: Global, out: &mut Vec<u8>) -> Result<(), Memory>
        ensures ok { OnOk result (out.new.items ≡ out.old.items ++ reply_text (reply_of self.now)) }
        ensures err { OnErr result (out.new.items ≡ out.old.items) }
    {
        let before = out.len();
        let written = match self {
            Reply::Ok => write_ok(out),
            Reply::Entry { ino, kind } => write_entry(alloc, *ino, *kind, out),
            Reply::List(lines) => write_list(alloc, lines.as_slice(), out),
            Reply::Parents(lines) => write_parents(alloc, lines.as_slice(), out),
            Reply::Error(error) => write_error(alloc, *error, out),
        };
        if written.is_err() {
            out.truncate(before);
        }
        written
    }
}

fn write_ok(out: &mut Vec<u8>) -> Result<(), Memory>
    ensures ok { OnOk result (out.new.items ≡ out.old.items ++ reply_text Plain) }
    ensures err { OnErr result (take (length out.old.items) out.new.items ≡ out.old.items) }
{
    out.extend_from_slice(b"ok\n")?;
    Ok(())
}

fn write_entry(alloc: Global, ino: u64, kind: Kind, out: &mut Vec<u8>) -> Result<(), Memory>
    ensures ok { OnOk result (out.new.items ≡ out.old.items ++ reply_text (EntryOf ino kind)) }
    ensures err { OnErr result (take (length out.old.items) out.new.items ≡ out.old.items) }
{
    let kind = kind.word();
    let text = format!(in alloc; "ok {ino} {kind}\n")?;
    out.extend_from_slice(text.as_bytes())?;
    Ok(())
}

fn write_error(alloc: Global, error: Errno, out: &mut Vec<u8>) -> Result<(), Memory>
    ensures ok { OnOk result (out.new.items ≡ out.old.items ++ reply_text (ErrorOf error)) }
    ensures err { OnErr result (take (length out.old.items) out.new.items ≡ out.old.items) }
{
    let number = error.number();
    let word = error.word();
    let text = format!(in alloc; "error {number} {word}\n")?;
    out.extend_from_slice(text.as_bytes())?;
    Ok(())
}

fn write_list(alloc: Global, lines: &[ListLine], out: &mut Vec<u8>) -> Result<(), Memory>
    ensures ok { OnOk result (out.new.items ≡ out.old.items ++ reply_text (ListOf (lines_of lines.now))) }
    ensures err { OnErr result (take (length out.old.items) out.new.items ≡ out.old.items) }
{
    write_rows(alloc, lines, out)
}

fn write_parents(alloc: Global, lines: &[ParentLine], out: &mut Vec<u8>) -> Result<(), Memory>
    ensures ok { OnOk result (out.new.items ≡ out.old.items ++ reply_text (ParentsOf (parents_of lines.now))) }
    ensures err { OnErr result (take (length out.old.items) out.new.items ≡ out.old.items) }
{
    write_rows(alloc, lines, out)
}
