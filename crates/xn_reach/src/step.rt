//! Steps from one number to another, and those of one number among many.

ghost use Rattle.std.specs.Prelude.{◌≡◌, ℕ, ◌<◌, ◌≤◌, ◌↔◌, Any, IsPermutation, length, nat_le, nat_lt};
ghost use Rattle.std.specs.List.Sorted.{IsNonDecreasingBy, IsPartitionPoint};

/// A step from one number to another.
#[derive(Clone, Copy, Debug, PartialEq, Eq)]
pub struct Step {
    pub from: u64,
    pub to: u64,
}

/// Puts steps in order, by where they start.
pub fn in_order(steps: Vec<Step>) -> Vec<Step>
    ensures same { IsPermutation steps.items result.items }
    ensures sorted { IsNonDecreasingBy (λ step. step.from) result.items }
{
    let mut steps = steps;
    steps.sort_unstable_by_key(|step| step.from);
    steps
}

/// The steps from a number, among steps that rise by where they start.
pub(crate) fn steps_from(steps: &[Step], number: u64) -> &[Step]
    requires { IsNonDecreasingBy (λ step. step.from) steps.now }
    ensures { (next : ℕ) → Any (λ step. step.to ≡ next) result.now ↔ Any (λ step. (step.from ≡ number) × (step.to ≡ next)) steps.now }
{
    let first = count_below(steps, number);
    let behind = count_up_to(steps, number);
    &steps[first..behind]
}

/// How many steps start below a number.
fn count_below(steps: &[Step], number: u64) -> usize
    requires { IsNonDecreasingBy (λ step. step.from) steps.now }
    ensures bound { result ≤ length steps.now }
    ensures point { IsPartitionPoint (λ step. step.from < number) (λ step. number ≤ step.from) steps.now result }
{
    steps.partition_point(
        |step: &Step| -> bool
            ensures { result ≡ nat_lt step.now.from number }
        { step.from < number },
    )
}

/// How many steps start at a number or below it.
fn count_up_to(steps: &[Step], number: u64) -> usize
    requires { IsNonDecreasingBy (λ step. step.from) steps.now }
    ensures bound { result ≤ length steps.now }
    ensures point { IsPartitionPoint (λ step. step.from ≤ number) (λ step. number < step.from) steps.now result }
{
    steps.partition_point(
        |step: &Step| -> bool
            ensures { result ≡ nat_le step.now.from number }
        { step.from <= number },
    )
}
