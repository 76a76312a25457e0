ghost use Rattle.std.specs.Prelude.{◌≡◌, ◌+◌, ◌*◌, ◌≤◌, ℕ, List, [], ◌++◌, length, take, drop, fold};
ghost use Rattle.std.specs.Int.{w32, to_le_bytes};
ghost use Rattle.needle.specs.Crc.{shifted_by, byte_step, checksum, AreTables};
ghost use Rattle.needle.specs.Running.{IsRunOf};

use crate::crc_tables::TABLES;

/// Takes one byte into the remainder.
fn stepped(tables: &[[u32; 256]; 16], remainder: u32, byte: u8) -> u32
    requires { AreTables tables.now }
    ensures { result ≡ byte_step remainder byte }
{
    let [lowest, ..] = remainder.to_le_bytes();
    tables[0][usize::from(lowest ^ byte)] ^ (remainder >> 8)
}

/// Takes bytes into the remainder, one by one.
fn run(tables: &[[u32; 256]; 16], remainder: u32, bytes: &[u8]) -> u32
    requires { AreTables tables.now }
    ensures { result ≡ fold byte_step remainder bytes.now }
{
    let mut remainder = remainder;
    for byte in bytes {
        remainder = stepped(tables, remainder, *byte);
    }
    remainder
}

/// The four bytes at a place, the first one lowest.
#[inline(always)]
fn word_at(block: &[u8], place: usize) -> u32
    requires { place + 4 ≤ length block.now }
    ensures { to_le_bytes w32 result ≡ take 4 (drop place block.now) }
{
    let word = &block[place..][..4];
    u32::from_le_bytes([word[0], word[1], word[2], word[3]])
}

/// What four bytes add to the remainder, once as many bytes behind them have gone through as tables stand
/// before `first`.
#[inline(always)]
fn looked_up(tables: &[[u32; 256]; 16], first: usize, word: u32) -> u32
    requires tables { AreTables tables.now }
    requires within { first ≤ 12 }
    ensures { result ≡ shifted_by (8 * first) (fold byte_step 0 (to_le_bytes w32 word)) }
{
    let [a, b, c, d] = word.to_le_bytes();
    tables[first + 3][usize::from(a)]
        ^ tables[first + 2][usize::from(b)]
        ^ tables[first + 1][usize::from(c)]
        ^ tables[first][usize::from(d)]
}

/// Takes sixteen bytes into the remainder. The look-ups that don't wait for the remainder stand first.
#[inline(always)]
fn block_stepped(tables: &[[u32; 256]; 16], remainder: u32, block: &[u8]) -> u32
    requires tables { AreTables tables.now }
    requires block { length block.now ≡ 16 }
    ensures { result ≡ fold byte_step remainder block.now }
{
    let behind = looked_up(tables, 8, word_at(block, 4))
        ^ looked_up(tables, 4, word_at(block, 8))
        ^ looked_up(tables, 0, word_at(block, 12));
    looked_up(tables, 12, remainder ^ word_at(block, 0)) ^ behind
}

/// Takes bytes into the remainder, sixteen at a time.
fn run_blocks(tables: &[[u32; 256]; 16], remainder: u32, bytes: &[u8]) -> u32
    requires { AreTables tables.now }
    ensures { result ≡ fold byte_step remainder bytes.now }
{
    let mut remainder = remainder;
    let mut rest = bytes;
    while rest.len() >= 16 {
        let (block, behind) = rest.split_at(16);
        remainder = block_stepped(tables, remainder, block);
        rest = behind;
    }
    run(tables, remainder, rest)
}

/// Takes bytes into the remainder.
fn run_all(remainder: u32, bytes: &[u8]) -> u32
    ensures { result ≡ fold byte_step remainder bytes.now }
{
    run_blocks(&TABLES, remainder, bytes)
}

/// The CRC-32C of the bytes. Takes no memory.
pub fn crc32c(bytes: &[u8]) -> u32
    ensures { result ≡ checksum bytes.now }
{
    run_all(u32::MAX, bytes) ^ u32::MAX
}

/// The CRC-32C of bytes that come in pieces.
#[derive(Clone, Copy, Debug)]
pub struct Checksum {
    remainder: u32,
}

impl Checksum {
    /// Of no bytes yet. Takes no memory.
    pub fn new() -> Checksum
        ensures { IsRunOf [] result }
    {
        Checksum {
            remainder: u32::MAX,
        }
    }

    /// Takes the next bytes. Takes no memory.
    pub fn add(&mut self, bytes: &[u8])
        ensures { (so_far : List ℕ) → IsRunOf so_far self.old → IsRunOf (so_far ++ bytes.now) self.new }
    {
        self.remainder = run_all(self.remainder, bytes);
    }

    /// That of all bytes so far. Takes no memory.
    pub fn value(&self) -> u32
        ensures { (so_far : List ℕ) → IsRunOf so_far self.now → result ≡ checksum so_far }
    {
        self.remainder ^ u32::MAX
    }
}

#[cfg(test)]
mod tests {
    use super::*;

    /// Those of 32 bytes are examples of RFC 3720, appendix B.4.
    #[test]
    fn published_vectors_agree(rt: HostRuntime) {
        assert_eq!(rt; crc32c(b"123456789"), 0xe306_9283);
        assert_eq!(rt; crc32c(&[]), 0);
        assert_eq!(rt; crc32c(&[0; 32]), 0x8a91_36aa);
        assert_eq!(rt; crc32c(&[0xff; 32]), 0x62a8_ab43);
        let mut rising = [0u8; 32];
        for (i, byte) in (0u8..32).zip(rising.iter_mut()) {
            *byte = i;
        }
        assert_eq!(rt; crc32c(&rising), 0x46dd_794e);
    }
}
