use crate::View;
use crate::fill::fill;
use xn_inode::{Store, StoreFault, Super};
use xn_machine::Machine;

/// A machine seen through a view: a store whose blocks and inodes are the machine's with what the view keeps.
#[derive(Drop)]
pub struct Seen<'v, 'm, M: Machine> {
    pub view: &'v mut View,
    pub machine: &'m mut M,
}

impl<M: Machine> Store for Seen<'_, '_, M> {
    ghost use Rattle.std.specs.Prelude.{◌≡◌, ◌∷◌, [], option_map};
    ghost use Rattle.xn_replay.specs.Overlay.{shown};
    ghost use Rattle.xn_machine.specs.Frames.{MachineStays, stays_on};
    ghost use Rattle.xn_replay.specs.Viewed.{IsSeen, WasOnlyRead, read_at_first, read_on};

    ghost image = { λ s. option_map (λ x. shown x s.view.now.kept) (M.image s.machine.now) };

    ghost shape = { λ s. s.view.now.shape };

    ghost IsWhole = { λ s. IsSeen s.view.now (M.image s.machine.now) (M.sector_count s.machine.now) (M.read_faults s.machine.now) (M.reads s.machine.now) };

    ghost pool = { λ s. s.view.now.blocks };

    ghost free = { λ s. s.view.now.free };

    ghost faults = { λ s. M.read_faults s.machine.now };

    ghost fetches = { λ s. M.reads s.machine.now };

    ghost references = { λ s. s.view.ghost_name ∷ s.machine.ghost_name ∷ [] };

    ghost OnlyRead = { λ s t. WasOnlyRead M.Machine s.view.now t.view.now s.machine.now t.machine.now };

    ghost OnlyCalled = { λ s t. MachineStays M.Machine s.machine.now t.machine.now };

    ghost only_called_where_read = { λ s t only. only.machine_stays };

    ghost only_called_on = { λ s t u. stays_on M.Machine s.machine.now t.machine.now u.machine.now };

    ghost only_read_at_first = { λ s. read_at_first M.Machine s.view.now s.machine.now };

    ghost only_read_on = { λ s t u. read_on M.Machine s.view.now t.view.now u.view.now s.machine.now t.machine.now u.machine.now };

    fn geometry(&self) -> &Super {
        self.view.geometry()
    }

    fn block(&mut self, block: u64, into: &mut [u8]) -> Result<(), StoreFault> {
        let first = self.view.geometry().sector_of_block(block);
        fill(self.view, self.machine, first, into)
    }

    fn put_block(&mut self, block: u64, bytes: &[u8]) -> Result<(), StoreFault> {
        let first = self.view.geometry().sector_of_block(block);
        self.view.keep(first, bytes).map_err(|_| StoreFault::Memory)
    }

    fn inode(&mut self, number: u64, into: &mut [u8]) -> Result<(), StoreFault> {
        let sector = self.view.geometry().sector_of_inode(number);
        fill(self.view, self.machine, sector, into)
    }

    fn put_inode(&mut self, number: u64, bytes: &[u8]) -> Result<(), StoreFault> {
        let sector = self.view.geometry().sector_of_inode(number);
        self.view
            .keep(sector, bytes)
            .map_err(|_| StoreFault::Memory)
    }

    fn free_blocks(&self) -> u64 {
        self.view.free_count()
    }

    fn take_block(&mut self, near: Option<u64>) -> Result<u64, StoreFault> {
        Ok(self.view.take_block(near))
    }

    fn give_block(&mut self, block: u64) -> Result<(), StoreFault> {
        self.view.give_block(block);
        Ok(())
    }
}
