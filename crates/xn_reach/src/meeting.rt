//! Numbers that are met on the way, each of which waits until its own steps are taken.

ghost use Rattle.std.specs.Prelude.{OnOk};
ghost use Rattle.xn_reach.specs.Meetings.{Meets};

use crate::step::Step;
use std::collections::BTreeSet;
use xn_bytes::Memory;

/// Meets what steps lead to. What wasn't met before waits from then on.
pub(crate) fn meet(
    steps: &[Step],
    met: &mut BTreeSet<u64>,
    waiting: &mut Vec<u64>,
) -> Result<(), Memory>
    ensures { OnOk result (Meets steps.now met.old met.new waiting.old.items waiting.new.items) }
{
    for step in steps {
        if met.insert(step.to)? {
            waiting.push(step.to)?;
        }
    }
    Ok(())
}
