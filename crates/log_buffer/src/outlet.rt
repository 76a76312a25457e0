ghost use Rattle.std.specs.Prelude.{◌≡◌, ◌+◌, ◌≤◌, ◌<◌, ◌-◌, ◌^◌, ◌++◌, ◌∷◌, [], List, ℕ, Bool, true, false, length, IfOk, OnOk, OnErr, Some, None, Option};

use std::alloc::{AllocError, Global};
use weed_base::LogText;

/// Where the texts of records are published, one by one.
pub trait Outlet {
    /// What an outlet is made from.
    type Seed: Drop;

    /// It stands for this published list of texts.
    ghost StandsFor: { Self → List (List ℕ) → Type 0 };

    /// How long that list is.
    ghost count: { Self → ℕ };

    /// What was offered since the last publish.
    ghost offered: { Self → Option (List ℕ) };

    /// An outlet whose last published texts are these, with so many ahead of them.
    fn start(
        alloc: Global,
        seed: Self::Seed,
        log: &[LogText],
        before: u64,
    ) -> Result<Self, AllocError>
        requires { before + length log.now ≤ 2 ^ 63 - 1 }
        ensures stands { IfOk result (λ outlet. (ahead : List (List ℕ)) → length ahead ≡ before → StandsFor outlet (ahead ++ log.now)) }
        ensures count { IfOk result (λ outlet. count outlet ≡ before + length log.now) }
        ensures idle { IfOk result (λ outlet. offered outlet ≡ None) };

    /// Takes a text, which isn't published yet. After want of memory nothing is offered.
    fn offer(&mut self, alloc: Global, text: LogText) -> Result<(), AllocError>
        requires idle { offered self.old ≡ None }
        requires room { count self.old < 2 ^ 63 - 1 }
        ensures list { (list : List (List ℕ)) → StandsFor self.old list → StandsFor self.new list }
        ensures count { count self.new ≡ count self.old }
        ensures offered { OnOk result (offered self.new ≡ Some text) }
        ensures refused { OnErr result (offered self.new ≡ None) };

    /// Publishes what was offered, at one step. Takes no memory.
    fn publish(&mut self)
        requires { (text : List ℕ) × (offered self.old ≡ Some text) }
        ensures list { (list : List (List ℕ)) (text : List ℕ) → StandsFor self.old list → offered self.old ≡ Some text
            → StandsFor self.new (list ++ text ∷ []) }
        ensures count { count self.new ≡ count self.old + 1 }
        ensures idle { offered self.new ≡ None };

    /// The count is the length of each list that it stands for.
    ghost counts: { (outlet : Self) (list : List (List ℕ)) → StandsFor outlet list → length list ≡ count outlet };
}
