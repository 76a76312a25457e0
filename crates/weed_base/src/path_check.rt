ghost use Rattle.std.specs.Prelude.{◌≡◌, ◌≤◌, ◌+◌, ◌==◌, ◌∷◌, [], nat_lt, not, length, count_by};
ghost use Rattle.std.specs.List.{slice_split, list_any};
ghost use Rattle.std.specs.Str.{is_utf8};
ghost use Rattle.weed_base.specs.Path.{IsPath, spelled, parts_of};
ghost use Rattle.weed_base.specs.PathFaults.{fault_if, first_fault, part_fault, parts_fault, read_fault, join_fault};
ghost use Rattle.weed_base.specs.declared.path_fault.PathFault.TheVariants.{SlashInName, TooLong, NulByte, NotUtf8, TooDeep};

use crate::path_fault::PathFault;

const MAX_PART: usize = 255;

const MAX_DEPTH: usize = 64;

const MAX_TEXT: usize = 4096;

/// What is wrong with a part.
fn fault_of_part(part: &[u8]) -> Option<PathFault>
    ensures { result ≡ part_fault part.now }
{
    if part.is_empty() {
        Some(PathFault::EmptyPart)
    } else if part == b".".as_slice() || part == b"..".as_slice() {
        Some(PathFault::DotPart)
    } else if part.len() > MAX_PART {
        Some(PathFault::PartTooLong)
    } else {
        None
    }
}

/// What is wrong with parts, which stand between slashes.
fn fault_of_parts(text: &[u8]) -> Option<PathFault>
    requires { length text.now ≤ 4096 }
    ensures { result ≡ parts_fault (slice_split (λ b. b == 47) text.now) }
{
    let mut depth = 0;
    for part in text.split(|byte| *byte == b'/') {
        let fault = fault_of_part(part);
        if fault.is_some() {
            return fault;
        }
        depth += 1;
    }
    if depth > MAX_DEPTH {
        Some(PathFault::TooDeep)
    } else {
        None
    }
}

fn is_text(bytes: &[u8]) -> bool
    ensures { result ≡ is_utf8 bytes.now }
{
    str::from_utf8(bytes).is_ok()
}

/// What is wrong with a text.
#[tactic(auto, unfolding(crate::specs::PathFaults::read_fault))]
pub(crate) fn fault_of_text(text: &[u8]) -> Option<PathFault>
    ensures { result ≡ read_fault text.now }
{
    if !text.starts_with(b"/") {
        Some(PathFault::NotAbsolute)
    } else if text.len() > MAX_TEXT {
        Some(PathFault::TooLong)
    } else if text.contains(&0) {
        Some(PathFault::NulByte)
    } else if !is_text(text) {
        Some(PathFault::NotUtf8)
    } else if text.len() == 1 {
        None
    } else {
        fault_of_parts(&text[1..])
    }
}

/// What is wrong with a name that is put behind so many bytes and so many parts of a path.
fn fault_of_name(long: usize, deep: usize, name: &[u8]) -> Option<PathFault>
    requires short { long ≤ 4096 }
    requires few { deep ≤ 4096 }
    ensures { result ≡ first_fault
        (fault_if (list_any (λ b. b == 47) name.now) SlashInName
        ∷ fault_if (nat_lt 4096 (long + 1 + length name.now)) TooLong
        ∷ fault_if (list_any (λ b. b == 0) name.now) NulByte
        ∷ fault_if (not (is_utf8 name.now)) NotUtf8
        ∷ part_fault name.now
        ∷ fault_if (nat_lt 64 (deep + 1)) TooDeep
        ∷ []) }
{
    if name.contains(&b'/') {
        return Some(PathFault::SlashInName);
    }
    if long + 1 + name.len() > MAX_TEXT {
        return Some(PathFault::TooLong);
    }
    if name.contains(&0) {
        return Some(PathFault::NulByte);
    }
    if !is_text(name) {
        return Some(PathFault::NotUtf8);
    }
    if let Some(fault) = fault_of_part(name) {
        return Some(fault);
    }
    if deep + 1 > MAX_DEPTH {
        return Some(PathFault::TooDeep);
    }
    None
}

pub(crate) fn slash_count(bytes: &[u8]) -> usize
    ensures { result ≡ count_by (λ b. b == 47) bytes.now }
{
    bytes.iter().filter(|byte| **byte == b'/').count()
}

/// What is wrong with a name that is put behind the bytes of a path.
pub(crate) fn fault_of_join(bytes: &[u8], name: &[u8]) -> Option<PathFault>
    requires spelling { spelled (parts_of bytes.now) ≡ bytes.now }
    requires path { IsPath (parts_of bytes.now) }
    ensures { result ≡ join_fault (parts_of bytes.now) name.now }
{
    fault_of_name(bytes.len(), slash_count(bytes), name)
}
