ghost use Rattle.std.specs.Prelude.{◌≡◌};
ghost use Rattle.http_head.specs.Request.{method_of};

use crate::body::BodyKind;
use crate::range::RangeWish;
use weed_base::{Bytes, Items};

/// The methods that are served.
#[derive(Clone, Copy, Debug, PartialEq, Eq)]
pub enum Method {
    Get,
    Head,
    Put,
    Post,
    Delete,
}

/// The parts of a query: names and values, decoded.
pub type HeadQuery = Items<(Bytes, Bytes)>;

/// The head of a request.
#[derive(Debug, Drop)]
pub struct Head {
    pub method: Method,
    /// The target up to its first `?`, decoded.
    pub path: Bytes,
    pub query: HeadQuery,
    pub body: BodyKind,
    /// The value of the first such line, empty where there is none.
    pub content_type: Bytes,
    /// Whether the content has a coding other than `identity`.
    pub encoded: bool,
    pub range: RangeWish,
    /// Whether the connection closes behind the answer.
    pub close: bool,
    /// Whether an answer 100 is awaited before the body.
    pub expect: bool,
}

/// The method of that name.
pub fn method_of(text: &str) -> Option<Method>
    ensures { result ≡ method_of text.now }
{
    match text {
        "GET" => Some(Method::Get),
        "HEAD" => Some(Method::Head),
        "PUT" => Some(Method::Put),
        "POST" => Some(Method::Post),
        "DELETE" => Some(Method::Delete),
        _ => None,
    }
}
