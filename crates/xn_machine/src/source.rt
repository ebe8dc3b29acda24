ghost use Rattle.std.specs.Prelude.{◌≡◌, ◌<◌, ◌≤◌, ℕ, List, length, Option, IfOk, OnErr};
ghost use Rattle.xn_bytes.specs.Causes.{HasCause};
ghost use Rattle.xn_machine.specs.Input.{Takes, EndsRightly};

use crate::Failed;

/// A stream of bytes that is read once: the manifest, or a script.
///
/// Its count of faults never falls and stays below 2^64.
pub trait Source {
    /// What is left, where the source tells it.
    ghost left: { Self → Option (List ℕ) };

    /// How often reading has failed.
    ghost faults: { Self → ℕ };

    /// Takes the next bytes into the front of the slice, and answers how many. 0 is the end of the input.
    /// `Failed` takes nothing.
    fn read(&mut self, into: &mut [u8]) -> Result<usize, Failed>
        requires { 0 < length into.old }
        ensures within { IfOk result (λ count. count ≤ length into.new) }
        ensures takes { IfOk result (λ count. Takes (left self.old) (left self.new) count into.new) }
        ensures end { IfOk result (λ count. EndsRightly (left self.old) count) }
        ensures kept { OnErr result (left self.new ≡ left self.old) }
        ensures cause { HasCause (faults self.old) (faults self.new) result };
}
