ghost use Rattle.std.specs.Prelude.{◌≡◌};
ghost use Rattle.xn_meaning.specs.Statuses.{status_number};

/// How a run of the program ends.
#[derive(Clone, Copy, Debug, PartialEq, Eq)]
pub enum Status {
    /// All was read, and every reply was told.
    Done,
    /// The words are none of the program's forms.
    Usage,
    /// The image breaks a rule, which was told.
    Image,
    /// The manifest is outside its grammar; the first such line was told.
    Manifest,
    /// A read of the image or of the manifest failed.
    ReadFault,
    /// Telling failed.
    SayFault,
    /// Memory ran out.
    Memory,
    /// The manifest has more bytes than a manifest may have.
    Long,
}

impl Status {
    /// The exit status of the program.
    pub fn number(self) -> u8
        ensures { result ≡ status_number self }
    {
        match self {
            Status::Done => 0,
            Status::Usage => 1,
            Status::Image => 2,
            Status::Manifest => 3,
            Status::ReadFault => 4,
            Status::SayFault => 6,
            Status::Memory => 7,
            Status::Long => 9,
        }
    }
}
