//! What is seen of chunks from a position on.
ghost use Rattle.std.specs.Prelude.{◌≡◌, ◌≤◌, ◌<◌, ℕ, None, length, slice_index_or};
ghost use Rattle.spans.specs.declared.seen_spans.Span.{Span};
ghost use Rattle.spans.specs.Denotation.{chunk_seen_at, Reaches};
ghost use Rattle.spans.specs.Visible.{AreApart, EndsAfter, TellFrom, place_in};

use crate::seen_spans::Span;
use entry::Chunk;

/// Positions at which the same is seen, from one that is known on.
#[derive(Clone, Copy)]
pub struct Run {
    /// The first position behind them.
    pub to: u64,
    /// What is seen there.
    pub chunk: Option<Chunk>,
}

/// The spans without those that end by a position. Takes no memory.
pub fn spans_after(spans: &[Span], position: u64) -> &[Span]
    requires { AreApart spans.now }
    ensures same { (q : ℕ) → position ≤ q → place_in result.now None q ≡ place_in spans.now None q }
    ensures apart { AreApart result.now }
    ensures after { EndsAfter position result.now }
{
    let mut rest = spans;
    while !rest.is_empty() && rest[0].to <= position {
        rest = &rest[1..];
    }
    rest
}

/// What is seen from a position on, and before which the same is seen, at most up to `to`. Takes no memory.
pub fn run_from(chunks: &[Chunk], spans: &[Span], from: u64, to: u64) -> Run
    requires apart { AreApart spans.now }
    requires after { EndsAfter from spans.now }
    requires tell { TellFrom from chunks.now spans.now }
    requires filled { from < to }
    ensures filled { from < result.to }
    ensures within { result.to ≤ to }
    ensures reach { Reaches result.chunk from result.to }
    ensures seen { (position : ℕ) → from ≤ position → position < result.to → chunk_seen_at chunks.now position ≡ result.chunk }
{
    if spans.is_empty() {
        return Run { to, chunk: None };
    }
    let span = spans[0];
    if from < span.from {
        return Run {
            to: to.min(span.from),
            chunk: None,
        };
    }
    Run {
        to: to.min(span.to),
        chunk: Some(chunks[span.chunk as usize]),
    }
}
