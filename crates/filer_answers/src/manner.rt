/// How an answer is given, whatever it says.
#[derive(Clone, Copy, Debug, PartialEq, Eq)]
pub struct Manner {
    /// Whether the connection closes behind it.
    pub close: bool,
    /// Whether its head alone is sent, as HEAD asks for.
    pub bare: bool,
}
