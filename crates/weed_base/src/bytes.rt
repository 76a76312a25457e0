ghost use Rattle.std.specs.Prelude.{◌≡◌, IfOk};

use std::alloc::{AllocError, Global};
use std::marker::{Model, PhantomData};

/// Bytes of one kind, which contracts see as their list.
#[derive(Debug, Drop)]
pub struct Text<K> {
    bytes: Vec<u8>,
    kind: PhantomData<K>,
}

impl<K> Model for Text<K> {
    ghost use Rattle.std.specs.Prelude.{List, ℕ};
    ghost use Rattle.std.specs.Coded.{coded_list, coded_ℕ};

    ghost Value = { List ℕ };

    ghost coded = { coded_list coded_ℕ };

    ghost view = { λ text. text.bytes.items };
}

impl<K> Text<K> {
    /// A copy of any bytes.
    pub fn new(alloc: Global, text: &[u8]) -> Result<Self, AllocError>
        ensures { IfOk result (λ made. made ≡ text.now) }
    {
        Ok(Self::of(text.to_vec(alloc)?))
    }

    /// These bytes themselves. Takes no memory.
    pub fn of(bytes: Vec<u8>) -> Self
        ensures { result ≡ bytes.items }
    {
        Text {
            bytes,
            kind: PhantomData,
        }
    }

    /// The bytes. Takes no memory.
    pub fn as_slice(&self) -> &[u8]
        ensures { result.now ≡ self.now }
    {
        self.bytes.as_slice()
    }

    /// The `Vec` that holds them. Takes no memory.
    pub fn into_vec(self) -> Vec<u8>
        ensures { result.items ≡ self }
    {
        let Text { bytes, .. } = self;
        bytes
    }

    /// The same bytes again.
    pub fn copy(&self, alloc: Global) -> Result<Self, AllocError>
        ensures { IfOk result (λ made. made ≡ self.now) }
    {
        Self::new(alloc, self.as_slice())
    }
}

/// Of a word of a command line.
#[derive(Debug, Drop)]
pub struct WordKind;

/// Of a name in a directory.
#[derive(Debug, Drop)]
pub struct NameKind;

/// Of a media type.
#[derive(Debug, Drop)]
pub struct MimeKind;

/// Of no further meaning.
#[derive(Debug, Drop)]
pub struct PlainKind;

/// Of a payload of a log.
#[derive(Debug, Drop)]
pub struct LogTextKind;

/// A word of a command line, or a place that is named by one.
pub type Word = Text<WordKind>;

/// A name in a directory.
pub type Name = Text<NameKind>;

/// A media type.
pub type Mime = Text<MimeKind>;

/// Bytes of no further meaning.
pub type Bytes = Text<PlainKind>;

/// A payload of a log.
pub type LogText = Text<LogTextKind>;
