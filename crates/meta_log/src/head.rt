ghost use Rattle.std.specs.Prelude.{◌∷◌};
ghost use Rattle.meta_log.specs.Head.{IsHead};

const LONGEST: u32 = 67_108_864;

/// What stands at a place in a segment.
#[derive(Clone, Copy, Debug, PartialEq, Eq)]
pub enum Head {
    /// A gate that isn't open.
    Closed,
    /// Neither a gate that isn't open nor an item.
    Broken,
    /// An open gate, and the length of the payload behind it in bytes.
    Item(usize),
}

/// Looks at the length behind an open gate.
fn head_behind(behind: &[u8]) -> Head
    ensures { IsHead (1 ∷ behind.now) result }
{
    let [a, b, c, d, ..] = behind else {
        return Head::Broken;
    };
    let length = u32::from_be_bytes([*a, *b, *c, *d]);
    if length > LONGEST {
        return Head::Broken;
    }
    Head::Item(length as usize)
}

/// Looks at the gate and the length at the front of these bytes.
pub fn head_of(bytes: &[u8]) -> Head
    ensures { IsHead bytes.now result }
{
    match bytes {
        [] => Head::Broken,
        [1, behind @ ..] => head_behind(behind),
        [_, ..] => Head::Closed,
    }
}
