use xn_bytes::{Kind, Name};
use xn_near::Numbered;

/// An entry: in a directory, which has this generation, a name that names an inode as one of a kind. There are many, and in this order
/// the fields take the least memory.
#[derive(Debug, Drop)]
pub struct Naming {
    /// The directory's inode number.
    pub dir: u64,
    /// The number of the inode that is named.
    pub ino: u64,
    /// The generation that the directory has.
    pub generation: u32,
    pub kind: Kind,
    pub name: Name,
}

/// Entries have the number of the inode that they name.
impl Numbered for Naming {
    ghost number_of = { λ n. n.ino };

    fn number(&self) -> u64 {
        self.ino
    }
}
