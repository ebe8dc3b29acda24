//! The blocks of the pool that forks map.

ghost use Rattle.std.specs.Prelude.{◌≡◌, ◌↔◌, ◌<◌, ◌^◌, ℕ, All, Any, Contains, map};
ghost use Rattle.xn_rules.specs.Sound.{Maps};
ghost use Rattle.xn_facts.specs.Facts.{mapped_of};

use xn_facts::Run;
use xn_replay::View;

/// Makes all blocks that runs map used.
pub(crate) fn mark_mapped(view: &mut View, runs: &[Run])
    requires { All (λ block. block < 2 ^ 63) view.old.free }
    ensures free { (block : ℕ) → Contains view.new.free block ↔ (Contains view.old.free block × ¬ Any (Maps block) (map mapped_of runs.now)) }
    ensures others { view.new ≡ record view.old { free = view.new.free } }
{
    for run in runs {
        mark_run(view, *run);
    }
}

/// Makes the blocks of one run used.
fn mark_run(view: &mut View, run: Run)
    requires { All (λ block. block < 2 ^ 63) view.old.free }
    ensures free { (block : ℕ) → Contains view.new.free block ↔ (Contains view.old.free block × ¬ Maps block (mapped_of run)) }
    ensures others { view.new ≡ record view.old { free = view.new.free } }
{
    for block in run.block..run.block.saturating_add(run.count) {
        view.mark_used(block);
    }
}
