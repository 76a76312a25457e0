//! The spans of chunks.
ghost use Rattle.std.specs.Prelude.{◌≡◌, ◌≤◌, ◌<◌, ◌++◌, ◌∷◌, [], Some, IfOk, OnOk, All, length};
ghost use Rattle.entry.specs.Entry.{IsValidChunk};
ghost use Rattle.spans.specs.Visible.{IsVisible, AreApart, AreJoined, EndBy, Grows, place_of};

use crate::stretch::{Stretch, stretches_of};
use entry::Chunk;
use std::alloc::{AllocError, Global};
use weed_base::Items;

/// Positions of a file in which one chunk is seen.
#[derive(Clone, Copy, Debug, PartialEq, Eq)]
pub struct Span {
    /// The first position, in bytes.
    pub from: u64,
    /// The first position behind them.
    pub to: u64,
    /// The chunk's place in the list.
    pub chunk: u32,
}

/// Spans, rising.
pub type Spans = Items<Span>;

/// The maximal spans of the chunks of an entry.
pub fn visible(alloc: Global, chunks: &[Chunk]) -> Result<Spans, AllocError>
    requires valid { All IsValidChunk chunks.now }
    requires few { length chunks.now ≤ 65536 }
    ensures { IfOk result (IsVisible chunks.now) }
{
    let stretches = stretches_of(alloc, chunks, 0)?;
    join(alloc, &stretches)
}

/// The same of stretches.
fn join(alloc: Global, stretches: &[Stretch]) -> Result<Spans, AllocError>
    ensures { IfOk result (AreJoined stretches.now) }
{
    let mut spans = Vec::new(alloc);
    let mut at = 0;
    for stretch in stretches {
        add_stretch(&mut spans, at, stretch)?;
        at = at.max(stretch.to);
    }
    Ok(Items::of(spans))
}

/// Adds what is seen in a stretch from a position on.
fn add_stretch(spans: &mut Vec<Span>, at: u64, stretch: &Stretch) -> Result<(), AllocError>
    requires apart { AreApart spans.old.items }
    requires ended { EndBy at spans.old.items }
    ensures { OnOk result (Grows at stretch.now.to (place_of stretch.now.seen) spans.old.items spans.new.items) }
{
    if stretch.to <= at {
        return Ok(());
    }
    match stretch.seen {
        None => Ok(()),
        Some(seen) => {
            let span = Span {
                from: at,
                to: stretch.to,
                chunk: seen.place,
            };
            add_span(spans, span)
        }
    }
}

/// Adds a span, to the last one where that ends here and is of the same chunk.
fn add_span(spans: &mut Vec<Span>, span: Span) -> Result<(), AllocError>
    requires filled { span.from < span.to }
    requires apart { AreApart spans.old.items }
    requires ended { EndBy span.from spans.old.items }
    ensures { OnOk result (Grows span.from span.to (Some span.chunk) spans.old.items spans.new.items) }
{
    match spans.pop() {
        None => Ok(spans.push(span)?),
        Some(last) => add_behind(spans, last, span),
    }
}

/// The same where the last one is known.
fn add_behind(spans: &mut Vec<Span>, last: Span, span: Span) -> Result<(), AllocError>
    requires filled { span.from < span.to }
    requires apart { AreApart (spans.old.items ++ last ∷ []) }
    requires ended { EndBy span.from (spans.old.items ++ last ∷ []) }
    ensures { OnOk result (Grows span.from span.to (Some span.chunk) (spans.old.items ++ last ∷ []) spans.new.items) }
{
    if last.to == span.from && last.chunk == span.chunk {
        let longer = Span {
            from: last.from,
            ..span
        };
        return Ok(spans.push(longer)?);
    }
    spans.push(last)?;
    Ok(spans.push(span)?)
}
