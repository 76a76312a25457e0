ghost use Rattle.std.specs.Prelude.{◌≡◌, ◌+◌, ◌*◌, ◌≤◌, ◌++◌, [], ℕ, List, length};
ghost use Rattle.proto_wire.specs.Text.{IsFieldNumber, varint_text, tag_text, varint_field, fixed32_field, bytes_field, message_field};
ghost use Rattle.records.specs.Lengths.{capped, Measures};

/// The length of a message whose fields are counted one after another, and 2^64 - 1 where it is past that.
#[derive(Clone, Copy, Debug)]
pub struct Measure {
    pub size: u64,
}

impl Measure {
    /// Of no field.
    pub fn none() -> Measure
        ensures { Measures result.size [] }
    {
        Measure { size: 0 }
    }

    /// Counts a number; zero is written as nothing.
    pub fn varint(&mut self, number: u32, value: u64)
        requires { IsFieldNumber number }
        ensures { (text : List ℕ) → Measures self.old.size text → Measures self.new.size (text ++ varint_field number value) }
    {
        self.add(varint_field_size(number, value));
    }

    /// Counts four bytes; zero is written as nothing.
    pub fn fixed32(&mut self, number: u32, value: u32)
        requires { IsFieldNumber number }
        ensures { (text : List ℕ) → Measures self.old.size text → Measures self.new.size (text ++ fixed32_field number value) }
    {
        self.add(fixed32_field_size(number, value));
    }

    /// Counts bytes; none are written as nothing.
    pub fn bytes(&mut self, number: u32, value: &[u8])
        requires { IsFieldNumber number }
        ensures { (text : List ℕ) → Measures self.old.size text → Measures self.new.size (text ++ bytes_field number value.now) }
    {
        self.add(bytes_field_size(number, value));
    }

    /// Counts a message of so many bytes.
    pub fn message(&mut self, number: u32, size: u64)
        requires { IsFieldNumber number }
        ensures { (text inner : List ℕ) → Measures self.old.size text → Measures size inner → Measures self.new.size (text ++ message_field number inner) }
    {
        self.add(message_field_size(number, size));
    }

    fn add(&mut self, size: u64)
        ensures { (text more : List ℕ) → Measures self.old.size text → Measures size more → Measures self.new.size (text ++ more) }
    {
        self.size = self.size.saturating_add(size);
    }
}

fn varint_size(number: u64) -> u64
    ensures exact { result ≡ length (varint_text number) }
    ensures short { result ≤ 10 }
{
    let mut size = 1;
    let mut rest = number;
    while rest >= 0x80 {
        size += 1;
        rest /= 0x80;
    }
    size
}

fn tag_size(number: u32, kind: u64) -> u64
    requires number { IsFieldNumber number }
    requires kind { kind ≤ 5 }
    ensures exact { result ≡ length (tag_text number kind) }
    ensures short { result ≤ 10 }
{
    varint_size(u64::from(number) * 8 + kind)
}

fn varint_field_size(number: u32, value: u64) -> u64
    requires { IsFieldNumber number }
    ensures { Measures result (varint_field number value) }
{
    if value == 0 {
        return 0;
    }
    tag_size(number, 0) + varint_size(value)
}

fn fixed32_field_size(number: u32, value: u32) -> u64
    requires { IsFieldNumber number }
    ensures { Measures result (fixed32_field number value) }
{
    if value == 0 {
        return 0;
    }
    tag_size(number, 5) + 4
}

fn message_field_size(number: u32, size: u64) -> u64
    requires { IsFieldNumber number }
    ensures { (inner : List ℕ) → Measures size inner → Measures result (message_field number inner) }
{
    (tag_size(number, 2) + varint_size(size)).saturating_add(size)
}

fn bytes_field_size(number: u32, bytes: &[u8]) -> u64
    requires { IsFieldNumber number }
    ensures { Measures result (bytes_field number bytes.now) }
{
    if bytes.is_empty() {
        return 0;
    }
    message_field_size(number, bytes.len() as u64)
}
