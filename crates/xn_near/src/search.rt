//! How many of what rises have a number below another one, or up to it.

ghost use Rattle.std.specs.Prelude.{◌≡◌, ℕ, ◌<◌, ◌≤◌, IsTrue, length};
ghost use Rattle.std.specs.List.Sorted.{IsNonDecreasingBy, IsPartitionPoint};

/// What has a number.
pub trait Numbered {
    ghost number_of: { Self → ℕ };

    fn number(&self) -> u64
        ensures { result ≡ number_of self.now };
}

/// How many of what rises have a number below this one. Where that is `near`, it looks at two of them at most; else it takes as many
/// looks as their count has binary digits.
pub fn count_below<T: Numbered>(items: &[T], number: u64, near: usize) -> usize
    requires { IsNonDecreasingBy T.number_of items.now }
    ensures bound { result ≤ length items.now }
    ensures point { IsPartitionPoint (λ item. T.number_of item < number) (λ item. number ≤ T.number_of item) items.now result }
{
    if is_point(items, number, near) {
        near
    } else {
        items.partition_point(|item| item.number() < number)
    }
}

/// Whether those in front of a place have numbers below this one, and the others none.
fn is_point<T: Numbered>(items: &[T], number: u64, at: usize) -> bool
    requires { IsNonDecreasingBy T.number_of items.now }
    ensures { IsTrue result → (at ≤ length items.now) × IsPartitionPoint (λ item. T.number_of item < number) (λ item. number ≤ T.number_of item) items.now at }
{
    at <= items.len()
        && (at == 0 || items[at - 1].number() < number)
        && (at == items.len() || number <= items[at].number())
}

/// How many of what rises have this number or one below it. It looks at each of these and at one more.
pub fn count_up_to<T: Numbered>(items: &[T], number: u64) -> usize
    requires { IsNonDecreasingBy T.number_of items.now }
    ensures bound { result ≤ length items.now }
    ensures point { IsPartitionPoint (λ item. T.number_of item ≤ number) (λ item. number < T.number_of item) items.now result }
{
    for at in 0..items.len() {
        if number < items[at].number() {
            return at;
        }
    }
    items.len()
}
