//! The numbers that steps lead to.

ghost use Rattle.std.specs.Prelude.{ℕ, ◌↔◌, Contains, IfOk, IsTrue, List};
ghost use Rattle.std.specs.List.Sorted.{IsNonDecreasingBy};
ghost use Rattle.xn_reach.specs.Steps.{Leads};

use crate::meeting::meet;
use crate::step::{Step, steps_from};
use std::alloc::Global;
use std::collections::BTreeSet;
use std::marker::Model;
use xn_bytes::Memory;

/// The numbers that steps lead to from a start, the start among them. Contracts see them as a list. It takes memory for each
/// of them, and as many look-ups as there are steps from them.
#[derive(Drop)]
pub struct Reached {
    numbers: BTreeSet<u64>,
}

impl Model for Reached {
    ghost use Rattle.std.specs.Prelude.{List, ℕ};

    ghost Value = { List ℕ };

    ghost view = { λ r. r.numbers.keys };
}

impl Reached {
    /// The numbers that steps lead to. The steps rise by where they start.
    pub fn from(alloc: Global, steps: &[Step], start: u64) -> Result<Reached, Memory>
        requires { IsNonDecreasingBy (λ step. step.from) steps.now }
        ensures { IfOk result (λ reached. (number : ℕ) → Contains reached number ↔ ((path : List ℕ) × Leads steps.now start path number)) }
    {
        let mut numbers = BTreeSet::new(alloc);
        let mut waiting = Vec::new(alloc);
        numbers.insert(start)?;
        waiting.push(start)?;
        while let Some(number) = waiting.pop() {
            meet(steps_from(steps, number), &mut numbers, &mut waiting)?;
        }
        Ok(Reached { numbers })
    }

    /// Whether they lead to a number.
    pub fn has(&self, number: u64) -> bool
        ensures { IsTrue result ↔ Contains self.now number }
    {
        self.numbers.contains(&number)
    }
}

#[cfg(test)]
mod tests {
    use super::*;
    use crate::step::in_order;
    use std::test::Fail;

    fn step(from: u64, to: u64) -> Step {
        Step { from, to }
    }

    #[test]
    fn leads_round_and_on(rt: HostRuntime) -> Result<(), Fail> {
        let steps = vec![in rt.alloc();
            step(5, 6),
            step(3, 9),
            step(1, 2),
            step(2, 3),
            step(1, 2),
            step(3, 1),
        ]?;
        let steps = in_order(steps);
        let reached = Reached::from(rt.alloc(), &steps, 1)?;
        for number in [1, 2, 3, 9] {
            assert!(rt; reached.has(number), "{number}");
        }
        for number in [0, 4, 5, 6, u64::MAX] {
            assert!(rt; !reached.has(number), "{number}");
        }
        Ok(())
    }

    #[test]
    fn stays_where_no_step_starts(rt: HostRuntime) -> Result<(), Fail> {
        let steps = in_order(vec![in rt.alloc(); step(1, 2), step(2, 7), step(2, 7)]?);
        let alone = Reached::from(rt.alloc(), &steps, 7)?;
        assert!(rt; alone.has(7));
        assert!(rt; !alone.has(1));
        assert!(rt; !alone.has(2));
        let two = Reached::from(rt.alloc(), &steps, 2)?;
        assert!(rt; two.has(2));
        assert!(rt; two.has(7));
        assert!(rt; !two.has(1));
        Ok(())
    }
}
