//! Replies of many lines.

ghost use Rattle.std.specs.Prelude.{◌≡◌, ◌++◌, ◌∷◌, [], List, ℕ, OnOk, OnErr, decimal, length, take, flat_map};
ghost use Rattle.xn_bytes.specs.Escapes.{escaped};
ghost use Rattle.xn_meaning.specs.Replies.{line_text, parent_text, newline, space};
ghost use Rattle.xn_text.specs.Viewed.{line_of, parent_of, rows_text};

use crate::{ListLine, ParentLine};
use itoa::Buffer;
use std::alloc::Global;
use xn_bytes::{Memory, Name, escape};

/// A line of a reply that counts its lines.
pub(crate) trait Row {
    ghost text: { Self → List ℕ };

    /// Appends the line, or a part of it.
    fn write(&self, out: &mut Vec<u8>) -> Result<(), Memory>
        ensures ok { OnOk result (out.new.items ≡ out.old.items ++ text self.now) }
        ensures err { OnErr result (take (length out.old.items) out.new.items ≡ out.old.items) };
}

impl Row for ListLine {
    ghost text = { λ line. line_text (line_of line) };

    fn write(&self, out: &mut Vec<u8>) -> Result<(), Memory> {
        write_number(self.ino, out)?;
        write_word(self.kind.word(), out)?;
        write_name(&self.name, out)
    }
}

impl Row for ParentLine {
    ghost text = { λ line. parent_text (parent_of line) };

    fn write(&self, out: &mut Vec<u8>) -> Result<(), Memory> {
        write_number(self.dir, out)?;
        write_number(u64::from(self.generation), out)?;
        write_name(&self.name, out)
    }
}

/// Appends `ok COUNT` and each line, or a part of it.
pub(crate) fn write_rows<R: Row>(alloc: Global, rows: &[R], out: &mut Vec<u8>) -> Result<(), Memory>
    ensures ok { OnOk result (out.new.items ≡ out.old.items ++ rows_text R.text rows.now) }
    ensures err { OnErr result (take (length out.old.items) out.new.items ≡ out.old.items) }
{
    let count = rows.len();
    let front = format!(in alloc; "ok {count}\n")?;
    out.extend_from_slice(front.as_bytes())?;
    write_each(rows, out)
}

fn write_each<R: Row>(rows: &[R], out: &mut Vec<u8>) -> Result<(), Memory>
    ensures ok { OnOk result (out.new.items ≡ out.old.items ++ flat_map R.text rows.now) }
    ensures err { OnErr result (take (length out.old.items) out.new.items ≡ out.old.items) }
{
    for row in rows {
        row.write(out)?;
    }
    Ok(())
}

/// Appends a word and a space.
fn write_word(word: &str, out: &mut Vec<u8>) -> Result<(), Memory>
    ensures ok { OnOk result (out.new.items ≡ out.old.items ++ word.now ++ space ∷ []) }
    ensures err { OnErr result (take (length out.old.items) out.new.items ≡ out.old.items) }
{
    out.extend_from_slice(word.as_bytes())?;
    out.push(b' ')?;
    Ok(())
}

/// Appends a number and a space, without memory of its own.
fn write_number(number: u64, out: &mut Vec<u8>) -> Result<(), Memory>
    ensures ok { OnOk result (out.new.items ≡ out.old.items ++ decimal number ++ space ∷ []) }
    ensures err { OnErr result (take (length out.old.items) out.new.items ≡ out.old.items) }
{
    let mut digits = Buffer::new();
    write_word(digits.format(number), out)
}

/// Appends a name, escaped, and the line's end.
fn write_name(name: &Name, out: &mut Vec<u8>) -> Result<(), Memory>
    ensures ok { OnOk result (out.new.items ≡ out.old.items ++ escaped name.now ++ newline ∷ []) }
    ensures err { OnErr result (take (length out.old.items) out.new.items ≡ out.old.items) }
{
    escape(name.bytes(), out)?;
    out.push(b'\n')?;
    Ok(())
}
