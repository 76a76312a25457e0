ghost use Rattle.std.specs.Prelude.{◌≡◌};
ghost use Rattle.std.specs.Cmp.Lexicographic.{pointwise};
ghost use Rattle.records.specs.Sameness.{is_same_attributes, is_same_chunk, is_same_entry};

use entry::{Attributes, Chunk, Entry};

/// The entries mean the same: kind, attributes and chunks. Takes no memory.
pub fn is_same_entry(entry: &Entry, other: &Entry) -> bool
    ensures { result ≡ is_same_entry entry.now other.now }
{
    entry.kind == other.kind
        && have_same_attributes(&entry.attributes, &other.attributes)
        && are_same_chunks(entry.chunks.as_slice(), other.chunks.as_slice())
}

fn have_same_attributes(one: &Attributes, other: &Attributes) -> bool
    ensures { result ≡ is_same_attributes one.now other.now }
{
    one.file_size == other.file_size
        && one.mtime == other.mtime
        && one.mode == other.mode
        && one.uid == other.uid
        && one.gid == other.gid
        && one.crtime == other.crtime
        && one.mime.as_slice() == other.mime.as_slice()
        && one.ttl_sec == other.ttl_sec
        && one.md5 == other.md5
}

fn are_same_chunks(chunks: &[Chunk], others: &[Chunk]) -> bool
    ensures { result ≡ pointwise is_same_chunk chunks.now others.now }
{
    chunks == others
}
