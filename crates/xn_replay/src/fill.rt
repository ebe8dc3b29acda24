ghost use Rattle.std.specs.Prelude.{◌≡◌, ◌+◌, ◌*◌, ◌/◌, length, slice_range, IfErr, IfSome, OnOk};
ghost use Rattle.xn_inode.specs.Stores.{HasStoreCause, IsOneMore};
ghost use Rattle.xn_machine.specs.Device.{IsSectors};
ghost use Rattle.xn_replay.specs.Overlay.{shown, AreAllKept};
ghost use Rattle.xn_replay.specs.Viewed.{IsSeen, WasOnlyRead};

use crate::View;
use xn_inode::StoreFault;
use xn_machine::Machine;

const SECTOR_SIZE: usize = 512;

/// Fills the slice with whole sectors of the image from `first` on, by one read, or none where all of them are kept.
pub fn fill<M: Machine>(
    view: &View,
    machine: &mut M,
    first: u64,
    into: &mut [u8],
) -> Result<(), StoreFault>
    requires whole { IsSeen view.now (M.image machine.old) (M.sector_count machine.old) (M.read_faults machine.old) (M.reads machine.old) }
    requires sectors { IsSectors (M.sector_count machine.old) first (length into.old) }
    ensures bytes { OnOk result (IfSome (M.image machine.old) (λ x. into.new ≡ slice_range (shown x view.now.kept) (512 * first) (512 * first + length into.old))) }
    ensures cause { HasStoreCause (M.read_faults machine.old) (M.read_faults machine.new) result }
    ensures fault { IfErr result (λ fault. fault ≡ StoreFault.Read) }
    ensures fetches { IsOneMore (M.reads machine.old) (M.reads machine.new) }
    ensures none { AreAllKept view.now.kept first (length into.old / 512) → M.reads machine.new ≡ M.reads machine.old }
    ensures only_read { WasOnlyRead M.Machine view.now view.now machine.old machine.new }
    ensures whole { IsSeen view.now (M.image machine.new) (M.sector_count machine.new) (M.read_faults machine.new) (M.reads machine.new) }
{
    if !view.has_all(first, into.len() / SECTOR_SIZE) {
        machine.read(first, into).map_err(|_| StoreFault::Read)?;
    }
    view.lay_over(first, into);
    Ok(())
}
