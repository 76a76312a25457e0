ghost use Rattle.std.specs.Prelude.{◌≡◌, IfSome};
ghost use Rattle.filer_answers.specs.Part.{part_between, wished_part, IsWithin};

use http_head::RangeWish;

/// What part of a file is sent.
#[derive(Clone, Copy, Debug, PartialEq, Eq)]
pub enum Part {
    /// All of it.
    Whole,
    /// The bytes from a place to before another.
    Between { from: u64, to: u64 },
}

/// The part of a file of so many bytes that is wished for. None exactly where a range misses the file. Takes no memory.
pub fn wished_part(wish: RangeWish, length: u64) -> Option<Part>
    ensures part { result ≡ wished_part wish length }
    ensures within { IfSome result (IsWithin length) }
{
    match wish {
        RangeWish::All => Some(Part::Whole),
        RangeWish::Between(first, last) => part_between(first, last.saturating_add(1), length),
        RangeWish::From(first) => part_between(first, length, length),
        RangeWish::Last(count) => part_between(length.saturating_sub(count), length, length),
    }
}

fn part_between(from: u64, to: u64, length: u64) -> Option<Part>
    ensures part { result ≡ part_between from to length }
    ensures within { IfSome result (IsWithin length) }
{
    let to = to.min(length);
    if from < to {
        Some(Part::Between { from, to })
    } else {
        None
    }
}
