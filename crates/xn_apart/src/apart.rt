//! Whether spans lie apart, once they are in order.

ghost use Rattle.std.specs.Prelude.{◌↔◌, AllPairs, IsTrue};
ghost use Rattle.std.specs.List.Sorted.{IsPermutation};
ghost use Rattle.xn_apart.specs.Spans.{AreApart, IsNoLater};

use crate::span::Span;

/// Sorts spans by block, and those of one block by count.
pub fn in_order(mut spans: Vec<Span>) -> Vec<Span>
    ensures same { IsPermutation spans.items result.items }
    ensures sorted { AllPairs IsNoLater result.items }
{
    spans.sort_unstable();
    spans
}

/// Whether no two of sorted spans have a block in common.
pub fn are_apart(spans: &[Span]) -> bool
    requires { AllPairs IsNoLater spans.now }
    ensures { IsTrue result ↔ AllPairs AreApart spans.now }
{
    for at in 1..spans.len() {
        let before = spans[at - 1];
        if spans[at].block - before.block < before.count {
            return false;
        }
    }
    true
}

#[cfg(test)]
mod tests {
    use super::*;
    use std::test::Fail;

    fn span(block: u64, count: u64) -> Span {
        Span { block, count }
    }

    #[test]
    fn sorts(rt: HostRuntime) -> Result<(), Fail> {
        let mixed = [span(9, 1), span(4, 3), span(4, 0), span(u64::MAX, u64::MAX)];
        let spans = in_order(mixed.to_vec(rt.alloc())?);
        let sorted = [span(4, 0), span(4, 3), span(9, 1), span(u64::MAX, u64::MAX)];
        assert_eq!(rt; spans.as_slice(), sorted.as_slice());
        assert!(rt; are_apart(&spans));
        Ok(())
    }

    #[test]
    fn touching_spans_are_apart(rt: HostRuntime) -> Result<(), Fail> {
        let spans = in_order([span(7, 2), span(4, 3)].to_vec(rt.alloc())?);
        assert!(rt; are_apart(&spans));
        Ok(())
    }

    #[test]
    fn spans_that_meet_are_not(rt: HostRuntime) -> Result<(), Fail> {
        let spans = in_order([span(9, 2), span(6, 2), span(4, 3)].to_vec(rt.alloc())?);
        assert!(rt; !are_apart(&spans));
        let twice = in_order([span(4, 1), span(4, 1)].to_vec(rt.alloc())?);
        assert!(rt; !are_apart(&twice));
        Ok(())
    }
}
