ghost use Rattle.std.specs.Prelude.{◌≡◌, codes};
ghost use Rattle.xn_bytes.specs.Kinds.{kind_number, kind_of_number, kind_of_mode, kind_word};

/// The kind of an inode. Its number, 1 to 7, stands in directory entries.
#[derive(Clone, Copy, Debug, PartialEq, Eq)]
pub enum Kind {
    Reg,
    Dir,
    Chr,
    Blk,
    Fifo,
    Sock,
    Lnk,
}

impl Kind {
    /// The kind with that number in a directory entry (`XFS_DIR3_FT_*`).
    pub fn from_number(number: u8) -> Option<Kind>
        ensures { result ≡ kind_of_number number }
    {
        match number {
            1 => Some(Kind::Reg),
            2 => Some(Kind::Dir),
            3 => Some(Kind::Chr),
            4 => Some(Kind::Blk),
            5 => Some(Kind::Fifo),
            6 => Some(Kind::Sock),
            7 => Some(Kind::Lnk),
            _ => None,
        }
    }

    /// The kind that an inode's mode says in its highest four bits (`S_IFMT`).
    pub fn from_mode(mode: u16) -> Option<Kind>
        ensures { result ≡ kind_of_mode mode }
    {
        match mode >> 12 {
            8 => Some(Kind::Reg),
            4 => Some(Kind::Dir),
            2 => Some(Kind::Chr),
            6 => Some(Kind::Blk),
            1 => Some(Kind::Fifo),
            12 => Some(Kind::Sock),
            10 => Some(Kind::Lnk),
            _ => None,
        }
    }

    /// The number in a directory entry.
    pub fn number(self) -> u8
        ensures { result ≡ kind_number self }
    {
        match self {
            Kind::Reg => 1,
            Kind::Dir => 2,
            Kind::Chr => 3,
            Kind::Blk => 4,
            Kind::Fifo => 5,
            Kind::Sock => 6,
            Kind::Lnk => 7,
        }
    }

    /// The word in a reply.
    pub fn word(self) -> &'static str
        ensures { result.now ≡ kind_word self }
    {
        match self {
            Kind::Reg => "reg",
            Kind::Dir => "dir",
            Kind::Chr => "chr",
            Kind::Blk => "blk",
            Kind::Fifo => "fifo",
            Kind::Sock => "sock",
            Kind::Lnk => "lnk",
        }
    }
}
