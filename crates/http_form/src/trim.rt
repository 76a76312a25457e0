ghost use Rattle.std.specs.Prelude.{◌≡◌};
ghost use Rattle.http_head.specs.Words.{is_blank, without_front, without_end, trimmed};

fn is_blank(byte: u8) -> bool
    ensures { result ≡ is_blank byte }
{
    byte == b' ' || byte == b'\t'
}

fn without_front(text: &[u8]) -> &[u8]
    ensures { result.now ≡ without_front text.now }
{
    let blanks = text.iter().take_while(|byte| is_blank(**byte)).count();
    &text[blanks..]
}

fn without_end(text: &[u8]) -> &[u8]
    ensures { result.now ≡ without_end text.now }
{
    let blanks = text
        .iter()
        .rev()
        .take_while(|byte| is_blank(**byte))
        .count();
    &text[..text.len() - blanks]
}

/// The text without the blanks around it.
pub fn trimmed(text: &[u8]) -> &[u8]
    ensures { result.now ≡ trimmed text.now }
{
    without_end(without_front(text))
}
