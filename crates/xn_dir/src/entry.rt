use xn_bytes::Kind;

/// What a name stands for in a directory.
#[derive(Clone, Copy, Debug, PartialEq, Eq)]
pub struct Entry {
    pub ino: u64,
    pub kind: Kind,
    /// The byte position in the directory's data, a multiple of 8.
    pub position: u64,
}
