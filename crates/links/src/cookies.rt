ghost use Rattle.std.specs.Prelude.{◌≡◌, List, ℕ, Option, IfSome};
ghost use Rattle.std.specs.Option.{option_map};
ghost use Rattle.weed_base.specs.Moments.{first_moment, later_moments};

/// What gives the cookies of new needles.
pub trait Cookies {
    /// The cookies to come, where told. The last one stays for ever.
    ghost cookies: { Self → Option (List ℕ) };

    /// The next cookie, which may be any number.
    fn next(&mut self) -> u32
        ensures cookie { IfSome (cookies self.old) (λ coming. result ≡ first_moment coming) }
        ensures later { cookies self.new ≡ option_map later_moments (cookies self.old) };
}
