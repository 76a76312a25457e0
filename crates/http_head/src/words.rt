ghost use Rattle.std.specs.Prelude.{◌≡◌, ◌≤◌, length, IsTrue};
ghost use Rattle.std.specs.List.{list_all};
ghost use Rattle.std.specs.Char.{is_ascii_digit};
ghost use Rattle.http_head.specs.Words.{place_of, front_of, back_of, is_word, is_blank, without_front, without_end, trimmed, has_word, is_number, capped_value, read_number};

/// Where the byte first stands in the text, or the length where it doesn't.
pub fn place_of(text: &[u8], byte: u8) -> usize
    ensures place { result ≡ place_of byte text.now }
    ensures within { result ≤ length text.now }
{
    text.iter().take_while(|other| **other != byte).count()
}

/// What stands before the first such byte: all, where there is none.
pub fn front_of(text: &[u8], byte: u8) -> &[u8]
    ensures { result.now ≡ front_of byte text.now }
{
    &text[..place_of(text, byte)]
}

/// What stands behind the first such byte: nothing, where there is none.
pub fn back_of(text: &[u8], byte: u8) -> &[u8]
    ensures { result.now ≡ back_of byte text.now }
{
    let place = place_of(text, byte);
    if place < text.len() {
        &text[place + 1..]
    } else {
        &[]
    }
}

/// Whether the text is the word, in any case.
pub fn is_word(text: &[u8], word: &[u8]) -> bool
    ensures { result ≡ is_word text.now word.now }
{
    text.eq_ignore_ascii_case(word)
}

fn is_blank(byte: u8) -> bool
    ensures { result ≡ is_blank byte }
{
    byte == b' ' || byte == b'\t'
}

fn without_front(text: &[u8]) -> &[u8]
    ensures { result.now ≡ without_front text.now }
{
    let blanks = text.iter().take_while(|byte| is_blank(**byte)).count();
    &text[blanks..]
}

fn without_end(text: &[u8]) -> &[u8]
    ensures { result.now ≡ without_end text.now }
{
    let blanks = text
        .iter()
        .rev()
        .take_while(|byte| is_blank(**byte))
        .count();
    &text[..text.len() - blanks]
}

fn trimmed(text: &[u8]) -> &[u8]
    ensures { result.now ≡ trimmed text.now }
{
    without_end(without_front(text))
}

/// Whether one of the words between commas is the word.
pub fn has_word(text: &[u8], word: &[u8]) -> bool
    ensures { result ≡ has_word text.now word.now }
{
    text.split(|byte| *byte == b',')
        .any(|part| is_word(trimmed(part), word))
}

fn is_number(text: &[u8]) -> bool
    ensures { result ≡ is_number text.now }
{
    !text.is_empty() && are_digits(text)
}

fn are_digits(text: &[u8]) -> bool
    ensures { result ≡ list_all is_ascii_digit text.now }
{
    text.iter().all(|byte| byte.is_ascii_digit())
}

/// The number that the text is, at most 2^64 - 1, where it is decimal digits alone.
pub fn read_number(text: &[u8]) -> Option<u64>
    ensures { result ≡ read_number text.now }
{
    is_number(text).then(|| capped_value(text))
}

fn capped_value(digits: &[u8]) -> u64
    ensures { IsTrue (list_all is_ascii_digit digits.now) → result ≡ capped_value digits.now }
{
    let mut value = 0u64;
    for digit in digits {
        value = value
            .saturating_mul(10)
            .saturating_add(u64::from(digit.saturating_sub(b'0')));
    }
    value
}
