ghost use Rattle.std.specs.Prelude.{◌≡◌, List, ℕ, Option, IfSome};
ghost use Rattle.std.specs.Option.{option_map};
ghost use Rattle.weed_base.specs.Moments.{first_moment, later_moments};

/// What tells the time, in nanoseconds since 1970.
pub trait Clock {
    /// The moments to come, where told. The last one stays for ever.
    ghost moments: { Self → Option (List ℕ) };

    /// The present moment, which may be any number.
    fn now(&mut self) -> u64
        ensures moment { IfSome (moments self.old) (λ coming. result ≡ first_moment coming) }
        ensures later { moments self.new ≡ option_map later_moments (moments self.old) };
}
