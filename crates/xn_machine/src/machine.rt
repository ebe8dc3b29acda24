ghost use Rattle.std.specs.Prelude.{◌≡◌, ◌*◌, ◌^◌, ◌<◌, ◌≤◌, ◌++◌, ℕ, List, length, Option, IfSome, OnOk, OnErr, option_map};
ghost use Rattle.xn_bytes.specs.Causes.{HasCause, counted};
ghost use Rattle.xn_machine.specs.Device.{IsSectors, read_from, written_at, IsTorn, BothImages, TellsFront};

/// The outside failed. What it did is said by the call's contract; a count that rose says that it was the outside.
#[derive(Clone, Copy, Debug, PartialEq, Eq)]
pub struct Failed;

/// The device that holds the image, in sectors of 512 bytes, together with the output, on which replies are told: a stop
/// ends both at once.
///
/// A machine that tells its sectors shows its image in contracts, and likewise its output. Its counts of faults never
/// fall and stay below 2^64: a count rose where it grew or stands at 2^64 - 1.
pub trait Machine {
    /// The bytes of all sectors as a read shows them, where the machine tells them.
    ghost image: { Self → Option (List ℕ) };

    /// The bytes told so far, where the machine tells them.
    ghost told: { Self → Option (List ℕ) };

    /// How many sectors there are.
    ghost sector_count: { Self → ℕ };

    /// How often reading, writing or syncing, and telling have failed.
    ghost read_faults: { Self → ℕ };

    ghost write_faults: { Self → ℕ };

    ghost say_faults: { Self → ℕ };

    /// How often `read` was called, up to 2^64 - 1.
    ghost reads: { Self → ℕ };

    /// How many sectors there are. The number never changes.
    fn sectors(&self) -> u64
        ensures count { result ≡ sector_count self.now }
        ensures whole { IfSome (image self.now) (λ x. length x ≡ 512 * result) }
        ensures small { (read_faults self.now < 2 ^ 64) × (write_faults self.now < 2 ^ 64) × (say_faults self.now < 2 ^ 64) × (reads self.now < 2 ^ 64) };

    /// Fills the slice with the sectors from `sector` on. After `Failed` it holds anything.
    fn read(&mut self, sector: u64, into: &mut [u8]) -> Result<(), Failed>
        requires { IsSectors (sector_count self.old) sector (length into.old) }
        ensures sectors { OnOk result (IfSome (image self.old) (λ x. into.new ≡ read_from x sector (length into.old))) }
        ensures cause { HasCause (read_faults self.old) (read_faults self.new) result }
        ensures counts { reads self.new ≡ counted (reads self.old) }
        ensures image { image self.new ≡ image self.old }
        ensures told { told self.new ≡ told self.old }
        ensures length { sector_count self.new ≡ sector_count self.old }
        ensures write_faults { write_faults self.old ≤ write_faults self.new }
        ensures say_faults { say_faults self.old ≤ say_faults self.new };

    /// Writes whole sectors from `sector` on. After `Failed` each of them reads as its old or its new bytes.
    fn write(&mut self, sector: u64, bytes: &[u8]) -> Result<(), Failed>
        requires { IsSectors (sector_count self.old) sector (length bytes.now) }
        ensures written { OnOk result (image self.new ≡ option_map (λ x. written_at x sector bytes.now) (image self.old)) }
        ensures torn { OnErr result (BothImages (image self.old) (image self.new) (λ x y. IsTorn x sector bytes.now y)) }
        ensures cause { HasCause (write_faults self.old) (write_faults self.new) result }
        ensures reads { reads self.new ≡ reads self.old }
        ensures told { told self.new ≡ told self.old }
        ensures length { sector_count self.new ≡ sector_count self.old }
        ensures read_faults { read_faults self.old ≤ read_faults self.new }
        ensures say_faults { say_faults self.old ≤ say_faults self.new };

    /// Makes everything written lasting.
    fn sync(&mut self) -> Result<(), Failed>
        ensures cause { HasCause (write_faults self.old) (write_faults self.new) result }
        ensures reads { reads self.new ≡ reads self.old }
        ensures image { image self.new ≡ image self.old }
        ensures told { told self.new ≡ told self.old }
        ensures length { sector_count self.new ≡ sector_count self.old }
        ensures read_faults { read_faults self.old ≤ read_faults self.new }
        ensures say_faults { say_faults self.old ≤ say_faults self.new };

    /// Tells bytes on the output. After `Failed` a front of them was told.
    fn say(&mut self, bytes: &[u8]) -> Result<(), Failed>
        ensures whole { OnOk result (told self.new ≡ option_map (λ told. told ++ bytes.now) (told self.old)) }
        ensures front { OnErr result (TellsFront (told self.old) (told self.new) bytes.now) }
        ensures cause { HasCause (say_faults self.old) (say_faults self.new) result }
        ensures reads { reads self.new ≡ reads self.old }
        ensures image { image self.new ≡ image self.old }
        ensures length { sector_count self.new ≡ sector_count self.old }
        ensures read_faults { read_faults self.old ≤ read_faults self.new }
        ensures write_faults { write_faults self.old ≤ write_faults self.new };
}
