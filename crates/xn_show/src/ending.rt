/// How a run of the program ends.
#[derive(Clone, Copy, Debug, PartialEq, Eq)]
pub enum Ending {
    /// The directory is shown, and each of its names was found as it is listed.
    Shown,
    /// The words are no path and number, the inode is no directory's, or a name was not found as it is listed.
    Failed,
    /// The image breaks a rule, or its superblock is not accepted.
    Broken,
    /// Reading or printing failed, or memory ran out.
    Fault,
}

impl Ending {
    /// The exit status.
    pub fn status(self) -> u8 {
        match self {
            Ending::Shown => 0,
            Ending::Failed => 1,
            Ending::Broken => 2,
            Ending::Fault => 4,
        }
    }
}
