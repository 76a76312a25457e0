ghost use Rattle.std.specs.Prelude.{◌≡◌};
ghost use Rattle.filer_requests.specs.Fault.{fault_name, status_of};

use std::alloc::AllocError;
use thiserror::Error;
use weed_base::PathFault;

/// Why a head asks nothing of a filer.
#[derive(Clone, Copy, Debug, PartialEq, Eq, Error)]
pub enum WishFault {
    #[error("the content has a coding other than `identity`")]
    Encoded,
    #[error("{0}")]
    BadPath(PathFault),
    #[error("a value of the query has another form or range")]
    BadQuery,
    #[error("no length of what is to be written")]
    NoLength,
    #[error("a body of over 67,108,864 bytes")]
    TooLong,
    #[error("the body is no form")]
    BadForm,
    #[error("out of memory")]
    Memory,
}

impl WishFault {
    /// Its name, as it stands in answers. Takes no memory.
    pub fn name(&self) -> &'static str
        ensures { result.now ≡ fault_name self.now }
    {
        match self {
            WishFault::Encoded => "Encoded",
            WishFault::BadPath(fault) => fault.name(),
            WishFault::BadQuery => "BadQuery",
            WishFault::NoLength => "NoLength",
            WishFault::TooLong => "TooLong",
            WishFault::BadForm => "BadForm",
            WishFault::Memory => "Memory",
        }
    }

    /// The status of its answer. Takes no memory.
    pub fn status(&self) -> u16
        ensures { result ≡ status_of self.now }
    {
        match self {
            WishFault::Encoded => 415,
            WishFault::BadPath(_) | WishFault::BadQuery | WishFault::BadForm => 400,
            WishFault::NoLength => 411,
            WishFault::TooLong => 413,
            WishFault::Memory => 503,
        }
    }
}

impl From<AllocError> for WishFault {
    ghost use Rattle.std.specs.Prelude.{◌≡◌};
    ghost use Rattle.filer_requests.specs.declared.fault.WishFault.TheVariants.{Memory};

    ghost from_gives = { λ _ fault. fault ≡ Memory };

    fn from(_: AllocError) -> Self {
        WishFault::Memory
    }
}
