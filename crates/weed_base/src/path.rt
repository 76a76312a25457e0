ghost use Rattle.std.specs.Prelude.{◌≡◌, ◌≤◌, ◌<◌, ◌+◌, ◌++◌, ◌∷◌, [], ℕ, List, None, length, take, drop, IfOk, IfSome, MatchOption, option_copied, ◌≢◌, All, slice_index, IsTrue, ◌↔◌, ◌⊎◌, IsOkUnless};
ghost use Rattle.std.specs.List.{last_or};
ghost use Rattle.std.specs.Str.{IsUtf8};
ghost use Rattle.weed_base.specs.Path.{IsPath, IsBelow, spelled, text_of, parts_in, parts_of, parent_of};
ghost use Rattle.weed_base.specs.PathFaults.{read_fault, read_in_fault, join_fault};
ghost use Rattle.weed_base.specs.PathOrder.{same_path, same_path-exact, path_cmp_total};
ghost use Rattle.std.specs.Cmp.{partial_equiv_from_equiv, eq_by_cmp_equiv};
ghost use Rattle.std.proofs.Common.{ap};

use crate::bytes::Name;
use crate::path_check::{fault_of_join, fault_of_text, slash_count};
use crate::path_fault::PathFault;
use std::alloc::{AllocError, Global};
use std::hash::{Hash, Hasher};
use std::marker::Model;

/// The path of an entry: at most 64 parts, whose text has at most 4,096 bytes. Contracts see the list of
/// its parts.
#[derive(Debug, Drop)]
pub struct Path {
    // Each part behind a slash, and nothing for the root.
    bytes: Vec<u8>,
}

impl Model for Path {
    ghost use Rattle.std.specs.Prelude.{◌≡◌, List, ℕ};
    ghost use Rattle.std.specs.Coded.{coded_list, coded_ℕ};
    ghost use Rattle.weed_base.specs.Path.{IsPath, parts_of, spelled};

    ghost Value = { List (List ℕ) };

    ghost coded = { coded_list (coded_list coded_ℕ) };

    ghost view = { λ path. parts_of path.bytes.items };

    ghost invariant = { λ path. (spelled (parts_of path.bytes.items) ≡ path.bytes.items) × IsPath (parts_of path.bytes.items) };
}

impl PartialEq for Path {
    ghost eq = { same_path };

    ghost laws = { partial_equiv_from_equiv (eq_by_cmp_equiv path_cmp_total) };

    fn eq(&self, other: &Path) -> bool {
        self.is(other)
    }
}

impl Eq for Path {
    ghost laws = { eq_by_cmp_equiv path_cmp_total };
}

impl Hash for Path {
    ghost hash_input = { λ path. text_of path ∷ [] };

    ghost respects_eq = { λ x y same. ap (λ path. text_of path ∷ []) (same_path-exact x y same) };

    fn hash<H: Hasher>(&self, state: &mut H) {
        state.write(self.text());
    }
}

impl Path {
    /// The path without parts. Takes no memory.
    #[tactic(auto, using(crate::proofs::PathLemmas::root_is_path))]
    pub fn root(alloc: Global) -> Path
        ensures { result ≡ [] }
    {
        Path {
            bytes: Vec::new(alloc),
        }
    }

    /// The path of a text, exactly where it is one. A lone slash is the root.
    pub fn read(alloc: Global, text: &[u8]) -> Result<Path, PathFault>
        ensures found { IfOk result (λ path. IsPath path × (text.now ≡ text_of path)) }
        ensures only { (parts : List (List ℕ)) → IsPath parts → text.now ≡ text_of parts → (result ≡ Ok parts) ⊎ (result ≡ Err PathFault.Memory) }
        ensures refused { MatchOption (read_fault text.now) (IsOkUnless result PathFault.Memory) (λ fault. result ≡ Err fault) }
    {
        if let Some(fault) = fault_of_text(text) {
            return Err(fault);
        }
        if text.len() == 1 {
            return Ok(Path::root(alloc));
        }
        Ok(Path::of_spelling(alloc, text)?)
    }

    /// The path of a name in the directory of a text.
    pub fn read_in(alloc: Global, directory: &[u8], name: &[u8]) -> Result<Path, PathFault>
        ensures found { IfOk result (λ path. IsPath path × (path ≡ parts_in directory.now ++ name.now ∷ [])) }
        ensures refused { MatchOption (read_in_fault directory.now name.now) (IsOkUnless result PathFault.Memory) (λ fault. result ≡ Err fault) }
    {
        if let Some(fault) = fault_of_text(directory) {
            return Err(fault);
        }
        let bytes = spelling_of(directory);
        if let Some(fault) = fault_of_join(bytes, name) {
            return Err(fault);
        }
        Ok(Path {
            bytes: spelling_with(alloc, bytes, name)?,
        })
    }

    /// The path with one part more.
    pub fn join(&self, alloc: Global, name: &Name) -> Result<Path, PathFault>
        ensures joined { IfOk result (λ path. IsPath path × (path ≡ self.now ++ name.now ∷ [])) }
        ensures refused { MatchOption (join_fault self.now name.now) (IsOkUnless result PathFault.Memory) (λ fault. result ≡ Err fault) }
    {
        self.join_part(alloc, name.as_slice())
    }

    /// The same of a name in a text that is read.
    pub fn join_part(&self, alloc: Global, name: &[u8]) -> Result<Path, PathFault>
        ensures joined { IfOk result (λ path. IsPath path × (path ≡ self.now ++ name.now ∷ [])) }
        ensures refused { MatchOption (join_fault self.now name.now) (IsOkUnless result PathFault.Memory) (λ fault. result ≡ Err fault) }
    {
        let bytes = self.bytes.as_slice();
        if let Some(fault) = fault_of_join(bytes, name) {
            return Err(fault);
        }
        Ok(Path {
            bytes: spelling_with(alloc, bytes, name)?,
        })
    }

    /// The same path again.
    pub fn copy(&self, alloc: Global) -> Result<Path, AllocError>
        ensures { IfOk result (λ made. made ≡ self.now) }
    {
        Path::of_spelling(alloc, &self.bytes)
    }

    /// How many parts it has.
    #[tactic(auto, using(crate::proofs::PathLemmas::depth_is_count))]
    pub fn depth(&self) -> usize
        ensures depth { result ≡ length self.now }
        ensures valid { IsPath self.now }
    {
        slash_count(&self.bytes)
    }

    /// Its text. Takes no memory.
    pub fn text(&self) -> &[u8]
        ensures text { result.now ≡ text_of self.now }
        ensures valid { IsPath self.now }
        ensures utf8 { IsUtf8 result.now }
    {
        if self.bytes.is_empty() {
            b"/"
        } else {
            self.bytes.as_slice()
        }
    }

    /// Its text. Takes no memory.
    pub fn as_str(&self) -> &str
        ensures text { result.now ≡ text_of self.now }
    {
        let text = self.text();
        unsafe { str::from_utf8_unchecked(text) }
    }

    /// Its last part, which the root lacks. Takes no memory.
    pub fn name(&self) -> Option<&[u8]>
        ensures last { option_copied result ≡ last_or None self.now }
        ensures utf8 { IfSome result (λ name. IsUtf8 name.now) }
    {
        let bytes = self.bytes.as_slice();
        let slash = last_slash(bytes)?;
        Some(&bytes[slash + 1..])
    }

    /// Its last part as text. Takes no memory.
    pub fn name_str(&self) -> Option<&str>
        ensures { option_copied result ≡ last_or None self.now }
    {
        let name = self.name()?;
        Some(unsafe { str::from_utf8_unchecked(name) })
    }

    /// The path without its last part; `None` exactly for the root.
    pub fn parent(&self, alloc: Global) -> Result<Option<Path>, AllocError>
        ensures { IfOk result (λ parent. parent ≡ parent_of self.now) }
    {
        let bytes = self.bytes.as_slice();
        let Some(slash) = last_slash(bytes) else {
            return Ok(None);
        };
        Ok(Some(Path::of_spelling(alloc, &bytes[..slash])?))
    }

    /// The path of its first parts, all of them where it has fewer.
    pub fn prefix(&self, alloc: Global, parts: usize) -> Result<Path, AllocError>
        ensures { IfOk result (λ prefix. prefix ≡ take parts self.now) }
    {
        let bytes = self.bytes.as_slice();
        let end = end_of_parts(bytes, parts);
        Path::of_spelling(alloc, &bytes[..end])
    }

    /// It has all the parts of the other, and more behind them. Takes no memory.
    pub fn is_below(&self, top: &Path) -> bool
        ensures { IsTrue result ↔ IsBelow self.now top.now }
    {
        continues(&self.bytes, &top.bytes)
    }

    /// It is the same path. Takes no memory.
    pub fn is(&self, other: &Path) -> bool
        ensures { IsTrue result ↔ (self.now ≡ other.now) }
    {
        self.bytes.as_slice() == other.bytes.as_slice()
    }

    /// The path whose parts are spelled so.
    fn of_spelling(alloc: Global, bytes: &[u8]) -> Result<Path, AllocError>
        requires spelling { spelled (parts_of bytes.now) ≡ bytes.now }
        requires path { IsPath (parts_of bytes.now) }
        ensures { IfOk result (λ path. path ≡ parts_of bytes.now) }
    {
        Ok(Path {
            bytes: bytes.to_vec(alloc)?,
        })
    }
}

/// A path has one text, and a text is of one path.
pub fn one_text_each()
    ensures { (a b : List (List ℕ)) → IsPath a → IsPath b → text_of a ≡ text_of b → a ≡ b }
{}

/// The spelling of the path of a text, which has no fault.
fn spelling_of(text: &[u8]) -> &[u8]
    requires { read_fault text.now ≡ None }
    ensures parts { parts_of result.now ≡ parts_in text.now }
    ensures spelling { spelled (parts_of result.now) ≡ result.now }
    ensures path { IsPath (parts_of result.now) }
{
    if text.len() == 1 { &[] } else { text }
}

/// These bytes, a slash and the name.
fn spelling_with(alloc: Global, bytes: &[u8], name: &[u8]) -> Result<Vec<u8>, AllocError>
    requires { length bytes.now ≤ 4096 }
    ensures { IfOk result (λ made. made.items ≡ bytes.now ++ 47 ∷ name.now) }
{
    let mut made = Vec::with_capacity(alloc, bytes.len() + 1 + name.len())?;
    made.extend_from_slice(bytes)?;
    made.push(b'/')?;
    made.extend_from_slice(name)?;
    Ok(made)
}

/// A slash stands behind the same first bytes.
fn continues(bytes: &[u8], first: &[u8]) -> bool
    ensures { IsTrue result ↔ ((rest : List ℕ) × (bytes.now ≡ first.now ++ 47 ∷ rest)) }
{
    match bytes.strip_prefix(first) {
        Some(rest) => rest.starts_with(b"/"),
        None => false,
    }
}

/// The place of the last slash.
fn last_slash(bytes: &[u8]) -> Option<usize>
    ensures { MatchOption result
        (All (λ b. b ≢ 47) bytes.now)
        (λ at. (at < length bytes.now) × (slice_index bytes.now at ≡ 47) × All (λ b. b ≢ 47) (drop (at + 1) bytes.now)) }
{
    bytes.iter().rposition(|byte| *byte == b'/')
}

/// The place where so many parts end.
#[tactic(auto, using(crate::proofs::PathLemmas::take_parts, crate::proofs::PathLemmas::take_all_parts))]
fn end_of_parts(bytes: &[u8], parts: usize) -> usize
    ensures within { result ≤ length bytes.now }
    ensures cut { parts_of (take result bytes.now) ≡ take parts (parts_of bytes.now) }
{
    let mut left = parts;
    for (at, byte) in bytes.iter().enumerate() {
        if *byte == b'/' {
            if left == 0 {
                return at;
            }
            left -= 1;
        }
    }
    bytes.len()
}
