//! Whether numbers lie in none of some spans.

ghost use Rattle.std.specs.Prelude.{◌≡◌, ◌<◌, ◌≤◌, ◌↔◌, All, IsTrue, length, nat_lt};
ghost use Rattle.std.specs.List.Sorted.{IsNonDecreasing, IsPartitionPoint};
ghost use Rattle.xn_apart.specs.Spans.{Holds};

use crate::span::Span;

/// Whether none of the numbers, which don't fall, is a block of one of the spans. It searches by halves for each span.
pub fn are_clear(spans: &[Span], numbers: &[u64]) -> bool
    requires { IsNonDecreasing numbers.now }
    ensures { IsTrue result ↔ All (λ number. All (λ span. ¬ Holds span number) spans.now) numbers.now }
{
    for span in spans {
        if !is_clear(span, numbers) {
            return false;
        }
    }
    true
}

/// Whether none of the numbers, which don't fall, is a block of the span.
fn is_clear(span: &Span, numbers: &[u64]) -> bool
    requires { IsNonDecreasing numbers.now }
    ensures { IsTrue result ↔ All (λ number. ¬ Holds span.now number) numbers.now }
{
    let first = count_below(numbers, span.block);
    first == numbers.len() || numbers[first] - span.block >= span.count
}

/// How many of the numbers, which don't fall, are below a bound.
fn count_below(numbers: &[u64], bound: u64) -> usize
    requires { IsNonDecreasing numbers.now }
    ensures bound { result ≤ length numbers.now }
    ensures point { IsPartitionPoint (λ number. number < bound) (λ number. bound ≤ number) numbers.now result }
{
    numbers.partition_point(
        |number: &u64| -> bool
            ensures { result ≡ nat_lt number.now bound }
        { *number < bound },
    )
}

#[cfg(test)]
mod tests {
    use super::*;
    use std::test::Fail;

    #[test]
    fn numbers_between_spans_are_clear(rt: HostRuntime) -> Result<(), Fail> {
        let spans = [
            Span {
                block: 20,
                count: 5,
            },
            Span { block: 4, count: 3 },
            Span {
                block: 10,
                count: 0,
            },
        ];
        assert!(rt; are_clear(&spans, &[0, 3, 7, 7, 10, 19, 25, u64::MAX]));
        assert!(rt; !are_clear(&spans, &[3, 6, 7]));
        assert!(rt; !are_clear(&spans, &[4]));
        assert!(rt; !are_clear(&spans, &[3, 8, 24]));
        assert!(rt; are_clear(&spans, &[]));
        assert!(rt; are_clear(&[], &[4]));
        Ok(())
    }
}
