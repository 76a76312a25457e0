ghost use Rattle.std.specs.Prelude.{◌≡◌, ◌≢◌, ◌↔◌, ◌++◌, ℕ, List, codes, Any, IsTrue, IfOk, IfErr, IsErrOf, IfSome, MatchBool, MatchOption};
ghost use Rattle.weed_base.specs.Told.{HasCause, IsCauseOf};
ghost use Rattle.weed_base.specs.DiskCalls.{Looks};
ghost use Rattle.std.specs.Char.{is_ascii_digit};
ghost use Rattle.std.specs.List.{list_all};
ghost use Rattle.std.specs.Str.{bytes_eq};
ghost use Rattle.meta_log.specs.LogText.{stem_text, Counts, SomeFrom, NoneFrom};
ghost use Rattle.meta_log.specs.Standing.{is_later_number, on_text, IsLaterOn, standing_of, IsStanding};
ghost use Rattle.meta_log.specs.Faults.{IfDamaged};

use crate::fault::LogFault;
use crate::stem::{Stem, first_on};
use std::alloc::Global;
use weed_base::{Disk, Failed, FileName, NamesFault};

/// Which segments of a disk count.
#[derive(Clone, Copy, Debug, PartialEq, Eq)]
pub enum Standing {
    /// None.
    Empty,
    /// The first alone.
    First,
    /// A later one, and not the first.
    Gap,
    /// The first and a later one.
    Second,
}

fn prefix(stem: Stem) -> &'static [u8]
    ensures { result.now ≡ stem_text stem ++ codes "." }
{
    match stem {
        Stem::Log => b"log.",
        Stem::Marks => b"marks.",
    }
}

fn all_digits(text: &[u8]) -> bool
    ensures { result ≡ list_all is_ascii_digit text.now }
{
    text.iter().all(|byte| byte.is_ascii_digit())
}

fn is_text(text: &[u8], other: &[u8]) -> bool
    ensures { result ≡ bytes_eq text.now other.now }
{
    text == other
}

fn has_later_number(digits: &[u8]) -> bool
    ensures { result ≡ is_later_number digits.now }
{
    digits.len() == 8
        && all_digits(digits)
        && !is_text(digits, b"00000000")
        && !is_text(digits, b"00000001")
}

/// What stands for the number in the name of an `.on` file.
fn digits_of(stem: Stem, name: &[u8]) -> Option<&[u8]>
    ensures { MatchOption result ((digits : List ℕ) → name.now ≢ on_text stem digits) (λ digits. name.now ≡ on_text stem digits.now) }
{
    name.strip_prefix(prefix(stem))?.strip_suffix(b".on")
}

fn is_later_on(stem: Stem, name: &[u8]) -> bool
    ensures { IsTrue result ↔ IsLaterOn stem name.now }
{
    match digits_of(stem, name) {
        Some(digits) => has_later_number(digits),
        None => false,
    }
}

fn any_later_on(stem: Stem, names: &[FileName]) -> bool
    ensures { IsTrue result ↔ Any (IsLaterOn stem) names.now }
{
    names.iter().any(|name| is_later_on(stem, name.as_slice()))
}

/// Whether a segment past the first counts.
fn later_counts<D: Disk>(alloc: Global, disk: &mut D, stem: Stem) -> Result<bool, NamesFault>
    ensures found { IfOk result (λ some. IfSome (D.files disk.old) (λ files. MatchBool some (SomeFrom stem 2 files) (NoneFrom stem 2 files))) }
    ensures looks { Looks D.Disk disk.old disk.new }
    ensures cause { IsCauseOf (D.faults disk.old) (D.faults disk.new) (IsErrOf result NamesFault.Failed) }
    ensures beside { D.beside disk.new ≡ D.beside disk.old }
{
    let names = disk.names(alloc)?;
    Ok(any_later_on(stem, names.as_slice()))
}

/// Whether the first segment counts.
fn first_counts<D: Disk>(disk: &mut D, stem: Stem) -> Result<bool, Failed>
    ensures found { IfOk result (λ some. IfSome (D.files disk.old) (λ files. IsTrue some ↔ Counts stem 1 files)) }
    ensures looks { Looks D.Disk disk.old disk.new }
    ensures cause { HasCause (D.faults disk.old) (D.faults disk.new) result }
    ensures beside { D.beside disk.new ≡ D.beside disk.old }
{
    let size = disk.size(&first_on(stem))?;
    Ok(size.is_some())
}

fn choose(first: bool, later: bool) -> Standing
    ensures { result ≡ standing_of first later }
{
    match (first, later) {
        (false, false) => Standing::Empty,
        (true, false) => Standing::First,
        (false, true) => Standing::Gap,
        (true, true) => Standing::Second,
    }
}

/// Which segments of the stem count.
pub fn find_standing<D: Disk>(alloc: Global, disk: &mut D, stem: Stem) -> Result<Standing, LogFault>
    ensures found { IfOk result (λ found. IfSome (D.files disk.old) (λ files. IsStanding stem files found)) }
    ensures undamaged { IfErr result (IfDamaged (λ _ _. ⊥)) }
    ensures looks { Looks D.Disk disk.old disk.new }
    ensures cause { IsCauseOf (D.faults disk.old) (D.faults disk.new) (IsErrOf result LogFault.DiskFault) }
    ensures beside { D.beside disk.new ≡ D.beside disk.old }
{
    let later = later_counts(alloc, disk, stem)?;
    let first = first_counts(disk, stem)?;
    Ok(choose(first, later))
}
