ghost use Rattle.std.specs.Prelude.{◌≡◌};

use crate::fault::NeedleFault;
use crate::placement::Placement;
use crate::version::Version;

/// The length in bytes of a superblock.
const LENGTH: usize = 8;

/// What stands at the front of a volume's file.
#[derive(Clone, Copy, Debug, PartialEq, Eq)]
pub struct SuperBlock {
    pub version: Version,
    pub placement: Placement,
    /// A count and a unit of time.
    pub ttl: [u8; 2],
    /// How often the file was compacted.
    pub revision: u16,
}

impl SuperBlock {
    ghost use Rattle.std.specs.Prelude.{◌<◌, ◌^◌, ◌↔◌, Ok, Err, IfOk};
    ghost use Rattle.needle.specs.SuperBlock.{superblock_text, SuperBlockAnswer, IsBlockRefused};

    /// The superblock of the text. The refusals come in the order `BadVersion`, `BadPlacement`,
    /// `ReservedSet`. Takes no memory.
    pub fn read(text: &[u8; LENGTH]) -> Result<SuperBlock, NeedleFault>
        // What is read is spelled so.
        ensures found { IfOk result (λ block. text.now ≡ superblock_text block) }
        // What is spelled so is read.
        ensures only { (block : SuperBlock) → block.revision < 2 ^ 16 → text.now ≡ superblock_text block → result ≡ Ok block }
        // Each refusal comes exactly in its case.
        ensures refused { (fault : NeedleFault) → (result ≡ Err fault) ↔ IsBlockRefused text.now fault }
    {
        Self::parsed(text)
    }

    fn parsed(text: &[u8; LENGTH]) -> Result<SuperBlock, NeedleFault>
        ensures { SuperBlockAnswer text.now result }
    {
        let [
            version,
            placement,
            count,
            unit,
            high,
            low,
            before_last,
            last,
        ] = *text;
        let version = Version::of_byte(version).ok_or(NeedleFault::BadVersion)?;
        let placement = Placement::of_byte(placement).ok_or(NeedleFault::BadPlacement)?;
        if before_last != 0 || last != 0 {
            return Err(NeedleFault::ReservedSet);
        }
        Ok(SuperBlock {
            version,
            placement,
            ttl: [count, unit],
            revision: u16::from_be_bytes([high, low]),
        })
    }

    /// The text of the superblock. Takes no memory.
    pub fn write(&self) -> [u8; LENGTH]
        ensures { result ≡ superblock_text self.now }
    {
        let [count, unit] = self.ttl;
        let [high, low] = self.revision.to_be_bytes();
        [
            self.version.byte(),
            self.placement.byte(),
            count,
            unit,
            high,
            low,
            0,
            0,
        ]
    }
}

#[cfg(test)]
mod tests {
    use super::*;
    use std::test::Fail;

    const TEXT: [u8; 8] = [3, 10, 0, 0, 0, 0, 0, 0];

    #[test]
    fn a_superblock_is_read_and_written(rt: HostRuntime) -> Result<(), Fail> {
        let block = SuperBlock::read(&TEXT)?;
        assert_eq!(rt; block.version, Version::V3);
        assert_eq!(rt; block.placement, Placement { x: 0, y: 1, z: 0 });
        assert_eq!(rt; block.revision, 0);
        assert_eq!(rt; block.write(), TEXT);
        let full = SuperBlock::read(&[2, 222, 7, 3, 1, 2, 0, 0])?;
        assert_eq!(rt; full.placement, Placement { x: 2, y: 2, z: 2 });
        assert_eq!(rt; full.ttl, [7, 3]);
        assert_eq!(rt; full.revision, 258);
        Ok(())
    }

    #[test]
    fn each_refusal_comes_in_its_order(rt: HostRuntime) {
        let versions = SuperBlock::read(&[4, 3, 0, 0, 0, 0, 1, 1]);
        assert_eq!(rt; versions, Err(NeedleFault::BadVersion));
        let digits = SuperBlock::read(&[3, 130, 0, 0, 0, 0, 1, 0]);
        assert_eq!(rt; digits, Err(NeedleFault::BadPlacement));
        let first = SuperBlock::read(&[3, 10, 0, 0, 0, 0, 1, 0]);
        assert_eq!(rt; first, Err(NeedleFault::ReservedSet));
        let second = SuperBlock::read(&[2, 0, 0, 0, 0, 0, 0, 9]);
        assert_eq!(rt; second, Err(NeedleFault::ReservedSet));
    }
}
