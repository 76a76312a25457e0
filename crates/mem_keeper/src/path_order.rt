ghost use Rattle.std.specs.Prelude.{◌≡◌};
ghost use Rattle.weed_base.specs.PathOrder.{path_cmp};

use std::cmp::Ordering;
use weed_base::Path;

/// How two paths are ordered: by their parts, byte by byte. Takes no memory.
pub fn order(path: &Path, other: &Path) -> Ordering
    ensures { result ≡ path_cmp path.now other.now }
{
    let parts = path.text().split(|byte| *byte == b'/');
    let other_parts = other.text().split(|byte| *byte == b'/');
    parts.cmp(other_parts)
}
