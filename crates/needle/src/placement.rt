ghost use Rattle.std.specs.Prelude.{◌≤◌};

/// How many further copies of a needle are kept: `x` in other data centers, `y` in other racks and `z` on
/// other servers, each 0 to 2.
#[derive(Clone, Copy, Debug, PartialEq, Eq)]
pub struct Placement {
    pub x: u8,
    pub y: u8,
    pub z: u8,
    pub ghost in_range: { (x ≤ 2) × (y ≤ 2) × (z ≤ 2) },
}

impl Placement {
    ghost use Rattle.std.specs.Prelude.{◌≡◌, MatchOption};
    ghost use Rattle.needle.specs.SuperBlock.{placement_byte, IsPlacementByte, AreDigits, HasDigits};

    /// The placement of these digits; `None` where one is over 2. Takes no memory.
    pub fn new(x: u8, y: u8, z: u8) -> Option<Placement>
        ensures { MatchOption result (AreDigits x y z → ⊥) (HasDigits x y z) }
    {
        if x <= 2 && y <= 2 && z <= 2 {
            Some(Placement { x, y, z })
        } else {
            None
        }
    }

    /// The byte that stands for the placement. Takes no memory.
    pub fn byte(self) -> u8
        ensures { result ≡ placement_byte self }
    {
        100 * self.x + 10 * self.y + self.z
    }

    /// The placement of a byte, where it has one. Takes no memory.
    pub fn of_byte(byte: u8) -> Option<Placement>
        ensures { MatchOption result (IsPlacementByte byte → ⊥) (λ placement. byte ≡ placement_byte placement) }
    {
        Self::new(byte / 100, byte / 10 % 10, byte % 10)
    }
}
