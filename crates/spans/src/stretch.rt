//! What is seen of chunks, by halves: each half's stretches, one laid over the other.
ghost use Rattle.std.specs.Prelude.{◌≡◌, ◌≤◌, ◌<◌, ◌+◌, ◌^◌, ℕ, None, IfOk, OnOk, All, length, min, slice_index_or};
ghost use Rattle.entry.specs.Entry.{IsValidChunk};
ghost use Rattle.spans.specs.declared.stretch.Stretch.{Stretch};
ghost use Rattle.spans.specs.Stretches.{AreStretches, seen_in, topmost};

use entry::Chunk;
use std::alloc::{AllocError, Global};

/// A chunk that is seen: its time, and its place in the list.
#[derive(Clone, Copy)]
pub(crate) struct Seen {
    pub(crate) modified: u64,
    pub(crate) place: u32,
}

/// Positions at which the same is seen, from the end of the stretch before on.
#[derive(Clone, Copy)]
pub(crate) struct Stretch {
    /// The first position behind them.
    pub(crate) to: u64,
    /// What is seen there.
    pub(crate) seen: Option<Seen>,
}

/// What is seen of chunks, the first of which has that place.
pub(crate) fn stretches_of(
    alloc: Global,
    chunks: &[Chunk],
    first: u32,
) -> Result<Vec<Stretch>, AllocError>
    requires valid { All IsValidChunk chunks.now }
    requires few { first + length chunks.now < 2 ^ 32 }
    ensures { IfOk result (λ made. AreStretches first chunks.now made.items) }
{
    if chunks.len() < 2 {
        return few_stretches(alloc, chunks, first);
    }
    let (front, behind) = chunks.split_at(chunks.len() / 2);
    let below = stretches_of(alloc, front, first)?;
    let above = stretches_of(alloc, behind, first + front.len() as u32)?;
    overlay(alloc, &below, &above)
}

/// The same of one chunk, or of none.
fn few_stretches(alloc: Global, chunks: &[Chunk], first: u32) -> Result<Vec<Stretch>, AllocError>
    requires valid { All IsValidChunk chunks.now }
    requires few { length chunks.now < 2 }
    ensures { IfOk result (λ made. AreStretches first chunks.now made.items) }
{
    let mut made = Vec::new(alloc);
    if let Some(chunk) = chunks.first() {
        made.push(Stretch {
            to: chunk.offset,
            seen: None,
        })?;
        made.push(Stretch {
            to: chunk.offset + chunk.size,
            seen: Some(Seen {
                modified: chunk.modified,
                place: first,
            }),
        })?;
    }
    Ok(made)
}

/// At each position what is seen of the stretches above, or through them of those below where its time is later.
fn overlay(
    alloc: Global,
    mut below: &[Stretch],
    mut above: &[Stretch],
) -> Result<Vec<Stretch>, AllocError>
    ensures { IfOk result (λ made. (position : ℕ) → seen_in made.items None position ≡ topmost (seen_in below.entry.now None position) (seen_in above.entry.now None position)) }
{
    let mut made = Vec::new(alloc);
    while !below.is_empty() && !above.is_empty() {
        let first = first_of(below, above);
        made.push(first)?;
        below = past(below, first.to);
        above = past(above, first.to);
    }
    made.extend_from_slice(below)?;
    made.extend_from_slice(above)?;
    Ok(made)
}

/// Up to the nearer end of the first two what is seen of both.
fn first_of(below: &[Stretch], above: &[Stretch]) -> Stretch
    requires below { 0 < length below.now }
    requires above { 0 < length above.now }
    ensures to { (d : Stretch) → result.to ≡ min (slice_index_or below.now 0 d).to (slice_index_or above.now 0 d).to }
    ensures seen { (d : Stretch) → result.seen ≡ topmost (slice_index_or below.now 0 d).seen (slice_index_or above.now 0 d).seen }
{
    let (one, behind) = (below[0], above[0]);
    Stretch {
        to: one.to.min(behind.to),
        seen: topmost(one.seen, behind.seen),
    }
}

/// The one of the later time, and of equal times the one behind.
fn topmost(one: Option<Seen>, behind: Option<Seen>) -> Option<Seen>
    ensures { result ≡ topmost one behind }
{
    match (one, behind) {
        (Some(one), Some(behind)) if behind.modified < one.modified => Some(one),
        (one, None) => one,
        (_, behind) => behind,
    }
}

/// The stretches without the first one where it ends by that position.
fn past(stretches: &[Stretch], position: u64) -> &[Stretch]
    requires { 0 < length stretches.now }
    ensures same { (q : ℕ) → position ≤ q → seen_in result.now None q ≡ seen_in stretches.now None q }
    ensures shorter { length result.now ≤ length stretches.now }
    ensures passed { (d : Stretch) → (slice_index_or stretches.now 0 d).to ≤ position → length result.now < length stretches.now }
{
    if stretches[0].to <= position {
        &stretches[1..]
    } else {
        stretches
    }
}
