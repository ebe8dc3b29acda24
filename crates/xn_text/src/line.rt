ghost use Rattle.std.specs.Prelude.{◌≡◌, List};
ghost use Rattle.xn_text.specs.declared.line.ListLine.{ListLine};
ghost use Rattle.xn_text.specs.declared.line.ParentLine.{ParentLine};

use std::marker::Model;
use xn_bytes::{Kind, Name};

/// A line of a list: a name, and the inode that it names with its kind.
#[derive(Debug, Drop)]
pub struct ListLine {
    pub ino: u64,
    pub kind: Kind,
    pub name: Name,
}

/// The lines of a list. Contracts see the list of them.
#[derive(Debug, Drop)]
pub struct Lines {
    lines: Vec<ListLine>,
}

impl Model for Lines {
    ghost Value = { List ListLine };

    ghost view = { λ l. l.lines.items };
}

impl Lines {
    /// These lines. It takes no memory.
    pub fn new(lines: Vec<ListLine>) -> Lines
        ensures { result ≡ lines.items }
    {
        Lines { lines }
    }

    pub fn as_slice(&self) -> &[ListLine]
        ensures { result.now ≡ self.now }
    {
        &self.lines
    }
}

/// A line of an inode's parents: a directory with its generation, and the name of an entry there that names the inode.
#[derive(Debug, Drop)]
pub struct ParentLine {
    pub dir: u64,
    pub generation: u32,
    pub name: Name,
}

/// The lines of an inode's parents. Contracts see the list of them.
#[derive(Debug, Drop)]
pub struct ParentLines {
    lines: Vec<ParentLine>,
}

impl Model for ParentLines {
    ghost Value = { List ParentLine };

    ghost view = { λ l. l.lines.items };
}

impl ParentLines {
    /// These lines. It takes no memory.
    pub fn new(lines: Vec<ParentLine>) -> ParentLines
        ensures { result ≡ lines.items }
    {
        ParentLines { lines }
    }

    pub fn as_slice(&self) -> &[ParentLine]
        ensures { result.now ≡ self.now }
    {
        &self.lines
    }
}
