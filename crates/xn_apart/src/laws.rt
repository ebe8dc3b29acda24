//! What it means that spans lie apart.

ghost use Rattle.std.specs.Prelude.{ℕ, ◌<◌};
ghost use Rattle.xn_apart.specs.declared.span.Span.{Span};
ghost use Rattle.xn_apart.specs.Spans.{AreApart, Holds};

/// Spans that lie apart share no block, and spans that share none lie apart, if each has a block.
pub fn apart_without_shared()
    ensures none { (a b : Span) (block : ℕ) → AreApart a b → Holds a block → ¬ Holds b block }
    ensures apart { (a b : Span) → 0 < a.count → 0 < b.count → ((block : ℕ) → Holds a block → ¬ Holds b block) → AreApart a b }
{}
