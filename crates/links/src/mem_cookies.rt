ghost use Rattle.std.specs.Prelude.{◌≡◌, ◌<◌, Some, length};
ghost use Rattle.weed_base.specs.Moments.{first_moment, later_moments};

use crate::cookies::Cookies;
use std::marker::Model;

/// Cookies of a list, and then the last one for ever.
#[derive(Debug, Drop)]
pub struct MemCookies {
    cookies: Vec<u32>,
    at: usize,
}

impl Model for MemCookies {
    ghost use Rattle.std.specs.Prelude.{List, ℕ, drop, length, ◌<◌};
    ghost use Rattle.std.specs.Coded.{coded_list, coded_ℕ};

    ghost Value = { List ℕ };

    ghost coded = { coded_list coded_ℕ };

    ghost view = { λ given. drop given.at given.cookies.items };

    ghost invariant = { λ given. given.at < length given.cookies.items };
}

impl MemCookies {
    /// Gives these cookies, of which there is at least one.
    pub fn new(cookies: Vec<u32>) -> MemCookies
        requires { 0 < length cookies.items }
        ensures { result ≡ cookies.items }
    {
        MemCookies { cookies, at: 0 }
    }
}

impl Cookies for MemCookies {
    ghost cookies = { λ given. Some given };

    fn next(&mut self) -> u32
        ensures cookie { result ≡ first_moment self.old }
        ensures later { Some self.new ≡ Some (later_moments self.old) }
    {
        let cookie = self.cookies[self.at];
        if self.at + 1 < self.cookies.len() {
            self.at += 1;
        }
        cookie
    }
}
