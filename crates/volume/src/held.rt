ghost use Rattle.std.specs.Prelude.{◌≡◌};
ghost use Rattle.needle_index.specs.Bytes.{live};
ghost use Rattle.volume_items.specs.Garbage.{Fit, dead, permille};

use needle::SuperBlock;
use needle_index::IndexMap;

/// What may be done with an open volume.
#[derive(Clone, Copy, Debug, PartialEq, Eq)]
pub enum Mode {
    ReadWrite,
    ReadOnly,
}

/// An open volume. Its files stay on the disk, and its index is held in memory.
#[derive(Debug, Drop)]
pub struct Volume {
    pub(crate) id: u32,
    pub(crate) block: SuperBlock,
    pub(crate) mode: Mode,
    /// The place behind the last item.
    pub(crate) end: u64,
    /// The length of the index file.
    pub(crate) index_end: u64,
    /// The greatest key of an item, 0 where there is none.
    pub(crate) greatest: u64,
    pub(crate) index: IndexMap,
    /// A writing call met a fault of the disk.
    pub(crate) broken: bool,
    pub ghost fit: { Fit block.version index.spots end },
}

/// How many thousandths a part is of itself and the rest, rounded down; 0 where both are 0.
fn permille(part: u64, rest: u64) -> u32
    ensures { result ≡ permille part rest }
{
    let whole = u128::from(part) + u128::from(rest);
    if whole == 0 {
        return 0;
    }
    (u128::from(part) * 1000 / whole) as u32
}

impl Volume {
    /// The place behind the last item, in bytes. Takes no memory.
    pub fn end(&self) -> u64
        ensures { result ≡ self.now.end }
    {
        self.end
    }

    /// The greatest key of an item, a deletion too, and 0 where there is none. Takes no memory.
    pub fn greatest_key(&self) -> u64
        ensures { result ≡ self.now.greatest }
    {
        self.greatest
    }

    /// How many thousandths of the bytes behind the superblock are of no needle, rounded down; 0 where there are
    /// no bytes. Takes no memory.
    pub fn garbage_permille(&self) -> u32
        ensures { result ≡ permille (dead self.now.block.version self.now.index.spots self.now.end) (live self.now.block.version self.now.index.spots) }
    {
        let version = self.block.version;
        permille(
            self.index.dead_bytes(version, self.end),
            self.index.live_bytes(version),
        )
    }
}
