ghost use Rattle.std.specs.Prelude.{List, ℕ, ◌+◌, ◌-◌, ◌^◌, ◌<◌, ◌≤◌, [], ◌∷◌, ◌++◌, IfOk, MatchBool, if◌then◌else◌};

use std::alloc::{AllocError, Global};

/// Which payloads a log may hold.
pub trait Check {
    /// It may hold these, in this order.
    ghost allowed: { List (List ℕ) → Type 0 };

    /// The check let these through, one after another.
    ghost passed: { Self → List (List ℕ) → Type 0 };

    /// How many payloads it counted.
    ghost count: { Self → ℕ };

    /// Whether the payload may follow those that were let through. After a yes it is let through too.
    fn pass(&mut self, alloc: Global, payload: &[u8]) -> Result<bool, AllocError>
        requires { count self.old < 2 ^ 64 - 1 }
        ensures counts { IfOk result (λ fits. count self.new ≤ count self.old + (if fits then 1 else 0)) }
        ensures verdict { IfOk result (λ fits. (before : List (List ℕ)) → passed self.old before
            → MatchBool fits (passed self.new (before ++ payload.now ∷ [])) (¬ allowed (before ++ payload.now ∷ []))) };

    ghost sound: { (check : Self) (before : List (List ℕ)) → passed check before → allowed before };
}
