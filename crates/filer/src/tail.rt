ghost use Rattle.std.specs.Prelude.{◌≡◌, ◌≤◌, ◌+◌, ◌-◌, ◌^◌, ◌++◌, ℕ, List, length, IfOk, None};

use log_buffer::Outlet;
use std::alloc::{AllocError, Global};
use weed_base::LogText;

/// How many bytes of texts an outlet is handed at most.
const MOST_BYTES: usize = 67_108_864;

ghost use Rattle.filer.specs.Tail.{StandsAhead};

/// How many of the texts stand ahead of the longest end of them that has at most 67,108,864 bytes.
fn count_ahead(texts: &[LogText]) -> usize
    ensures { StandsAhead texts.now result }
{
    let mut ahead = texts.len();
    let mut room = MOST_BYTES;
    while ahead > 0 {
        let size = texts[ahead - 1].as_slice().len();
        if size > room {
            return ahead;
        }
        room -= size;
        ahead -= 1;
    }
    0
}

/// An outlet over a log with so many records, of whose last texts it is handed the longest end that has at most
/// 67,108,864 bytes.
pub fn start_outlet<O: Outlet>(
    alloc: Global,
    seed: O::Seed,
    count: u64,
    texts: &[LogText],
) -> Result<O, AllocError>
    requires few { length texts.now ≤ count }
    requires bounded { count ≤ 2 ^ 63 - 1 }
    ensures stands { IfOk result (λ outlet. (ahead : List (List ℕ)) → length ahead + length texts.now ≡ count → O.StandsFor outlet (ahead ++ texts.now)) }
    ensures count { IfOk result (λ outlet. O.count outlet ≡ count) }
    ensures idle { IfOk result (λ outlet. O.offered outlet ≡ None) }
{
    let last = &texts[count_ahead(texts)..];
    O::start(alloc, seed, last, count - last.len() as u64)
}
