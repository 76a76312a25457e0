ghost use Rattle.std.specs.Prelude.{◌≡◌, ◌≢◌, ◌≤◌, [], List, ℕ, drop, length, IfOk, IsErrOf, IsTrue};
ghost use Rattle.weed_base.specs.Path.{text_of, IsPath};
ghost use Rattle.name_core.specs.Namespace.{is_within};
ghost use Rattle.name_plans.specs.Moving.{moved_path, within_limits, AreParts};
ghost use Rattle.name_plans.specs.Refusing.{Comes};

use name_core::{PlanFault, Refusal};
use std::alloc::{AllocError, Global};
use weed_base::{Path, PathFault};

/// A path at or below one top, moved to another. `PathLimit` where it would be past a limit of paths.
pub fn path_moved(alloc: Global, path: &Path, from: &Path, to: &Path) -> Result<Path, PlanFault>
    requires within { IsTrue (is_within from.now path.now) }
    requires from_filled { from.now ≢ [] }
    requires to_filled { to.now ≢ [] }
    ensures moved { Comes (within_limits (moved_path from.now to.now path.now)) result }
    ensures no_fault { IsErrOf result PlanFault.KeeperFault → ⊥ }
{
    let text = text_moved(alloc, path, from, to)?;
    path_of_text(alloc, &text)
}

/// The text of the path where it is moved to.
#[tactic(auto, using(crate::proofs::MovedTexts::moved_text, crate::proofs::MovedTexts::moved_parts))]
fn text_moved(alloc: Global, path: &Path, from: &Path, to: &Path) -> Result<Vec<u8>, AllocError>
    requires within { IsTrue (is_within from.now path.now) }
    requires from_filled { from.now ≢ [] }
    requires to_filled { to.now ≢ [] }
    ensures text { IfOk result (λ text. text.items ≡ text_of (moved_path from.now to.now path.now)) }
    ensures parts { IfOk result (λ _. AreParts (moved_path from.now to.now path.now)) }
{
    let top = to.text();
    let rest = rest_of(path, from);
    let mut text = Vec::with_capacity(alloc, top.len() + rest.len())?;
    text.extend_from_slice(top)?;
    text.extend_from_slice(rest)?;
    Ok(text)
}

/// What of a path's text is behind the top's.
#[tactic(auto, using(crate::proofs::MovedTexts::top_is_shorter))]
fn rest_of<'a>(path: &'a Path, top: &Path) -> &'a [u8]
    requires within { IsTrue (is_within top.now path.now) }
    requires filled { top.now ≢ [] }
    ensures rest { result.now ≡ drop (length (text_of top.now)) (text_of path.now) }
    ensures valid { IsPath path.now }
    ensures few { length result.now ≤ 4096 }
{
    &path.text()[top.text().len()..]
}

/// The path of a text of parts, which it is but for the limits.
fn path_of_text(alloc: Global, text: &[u8]) -> Result<Path, PlanFault>
    ensures read { (parts : List (List ℕ)) → text.now ≡ text_of parts → AreParts parts → Comes (within_limits parts) result }
    ensures no_fault { IsErrOf result PlanFault.KeeperFault → ⊥ }
{
    match Path::read(alloc, text) {
        Ok(path) => Ok(path),
        Err(PathFault::Memory) => Err(PlanFault::Memory),
        Err(_) => Err(PlanFault::Refused(Refusal::PathLimit)),
    }
}
