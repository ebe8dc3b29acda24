ghost use Rattle.std.specs.Prelude.{◌≡◌};
ghost use Rattle.xn_meaning.specs.Errors.{error_number, error_word};

/// Why a command is refused, by the names and numbers of Linux (`errno-base.h` and `errno.h`).
#[derive(Clone, Copy, Debug, PartialEq, Eq)]
pub enum Errno {
    EPERM,
    ENOENT,
    EBUSY,
    EEXIST,
    ENOTDIR,
    EISDIR,
    EINVAL,
    EFBIG,
    ENOSPC,
    ENAMETOOLONG,
    ENOTEMPTY,
}

impl Errno {
    /// The number in a reply.
    pub fn number(self) -> u8
        ensures { result ≡ error_number self }
    {
        match self {
            Errno::EPERM => 1,
            Errno::ENOENT => 2,
            Errno::EBUSY => 16,
            Errno::EEXIST => 17,
            Errno::ENOTDIR => 20,
            Errno::EISDIR => 21,
            Errno::EINVAL => 22,
            Errno::EFBIG => 27,
            Errno::ENOSPC => 28,
            Errno::ENAMETOOLONG => 36,
            Errno::ENOTEMPTY => 39,
        }
    }

    /// The name in a reply.
    pub fn word(self) -> &'static str
        ensures { result.now ≡ error_word self }
    {
        match self {
            Errno::EPERM => "EPERM",
            Errno::ENOENT => "ENOENT",
            Errno::EBUSY => "EBUSY",
            Errno::EEXIST => "EEXIST",
            Errno::ENOTDIR => "ENOTDIR",
            Errno::EISDIR => "EISDIR",
            Errno::EINVAL => "EINVAL",
            Errno::EFBIG => "EFBIG",
            Errno::ENOSPC => "ENOSPC",
            Errno::ENAMETOOLONG => "ENAMETOOLONG",
            Errno::ENOTEMPTY => "ENOTEMPTY",
        }
    }
}
