ghost use Rattle.std.specs.Prelude.{◌≡◌};
ghost use Rattle.needle.specs.Item.{body_of, cookie_of, key_of};

use weed_base::Bytes;

/// Data under a key, with what is told of it.
#[derive(Debug, Drop)]
pub struct Needle {
    /// What a request has to know besides the key.
    pub cookie: u32,
    pub key: u64,
    pub body: Bytes,
    pub name: Option<Bytes>,
    pub mime: Option<Bytes>,
    /// In seconds since 1970.
    pub modified: Option<u64>,
    /// A count and a unit of time.
    pub ttl: Option<[u8; 2]>,
    pub pairs: Option<Bytes>,
}

/// What stands in a volume: a needle, or that the needle of a key is deleted.
#[derive(Debug, Drop)]
pub enum Item {
    Live(Needle),
    Gone { cookie: u32, key: u64 },
}

impl Item {
    pub(crate) fn cookie(&self) -> u32
        ensures { result ≡ cookie_of self.now }
    {
        match self {
            Item::Live(needle) => needle.cookie,
            Item::Gone { cookie, .. } => *cookie,
        }
    }

    pub(crate) fn key(&self) -> u64
        ensures { result ≡ key_of self.now }
    {
        match self {
            Item::Live(needle) => needle.key,
            Item::Gone { key, .. } => *key,
        }
    }

    /// The data, none of a deletion.
    pub(crate) fn body(&self) -> &[u8]
        ensures { result.now ≡ body_of self.now }
    {
        match self {
            Item::Live(needle) => needle.body.as_slice(),
            Item::Gone { .. } => &[],
        }
    }
}

/// An item that was read, and how many bytes it has, padding included.
#[derive(Debug, Drop)]
pub struct ReadItem {
    pub item: Item,
    pub taken: u64,
    /// In nanoseconds since 1970, and 0 in version 2, which keeps none.
    pub moment: u64,
}
