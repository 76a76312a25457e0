ghost use Rattle.std.specs.Prelude.{◌≡◌, ◌≤◌, List, ℕ, ◌++◌, length, IfSome, IfNone};
ghost use Rattle.std.specs.Option.{option_map};
ghost use Rattle.std.specs.List.{list_all, prefix_len};
ghost use Rattle.weed_command.specs.Request.{is_target_byte, is_host_byte, is_framed, is_host, IsRequest};
ghost use Rattle.weed_command.specs.Reading.{host_of, is_head_end, target_at, target_of};

/// The most bytes that the head of a request has.
pub const MAX_HEAD: usize = 16_384;

/// The target of a request, where the text is one. Takes no memory.
pub fn read_request(text: &[u8]) -> Option<&[u8]>
    ensures found { IfSome result (λ target. IsRequest text.now target.now) }
    ensures none { IfNone result ((target : List ℕ) → ¬ IsRequest text.now target) }
{
    read_target(text)
}

/// No request begins another, so bytes begin with one request at most.
pub fn one_request()
    ensures { (a b x y s t : List ℕ) → IsRequest a s → IsRequest b t → a ++ x ≡ b ++ y → (a ≡ b) × (s ≡ t) }
{}

fn read_target(text: &[u8]) -> Option<&[u8]>
    ensures { option_map (λ target. target.now) result ≡ target_of text.now }
{
    if text.len() > MAX_HEAD {
        return None;
    }
    target_at(text.strip_prefix(b"POST ".as_slice())?)
}

fn target_at(text: &[u8]) -> Option<&[u8]>
    ensures { option_map (λ target. target.now) result ≡ target_at text.now }
{
    let (target, rest) = text.split_at(target_length(text));
    let lines = rest.strip_prefix(b" HTTP/1.1\r\n".as_slice())?;
    (is_framed(target) && is_head_end(lines)).then_some(target)
}

fn target_length(text: &[u8]) -> usize
    ensures count { result ≡ prefix_len is_target_byte text.now }
    ensures within { result ≤ length text.now }
{
    text.iter()
        .take_while(|byte| is_target_byte(**byte))
        .count()
}

fn is_target_byte(byte: u8) -> bool
    ensures { result ≡ is_target_byte byte }
{
    matches!(byte, b'!'..=b'~') && byte != b'%' && byte != b'?'
}

fn is_framed(target: &[u8]) -> bool
    ensures { result ≡ is_framed target.now }
{
    target.starts_with(b"/") && target.ends_with(b"/")
}

fn is_head_end(lines: &[u8]) -> bool
    ensures { result ≡ is_head_end lines.now }
{
    lines == b"\r\n".as_slice() || host_of(lines).is_some_and(is_host)
}

fn host_of(lines: &[u8]) -> Option<&[u8]>
    ensures { option_map (λ host. host.now) result ≡ host_of lines.now }
{
    lines
        .strip_prefix(b"Host: ".as_slice())?
        .strip_suffix(b"\r\n\r\n".as_slice())
}

fn is_host(host: &[u8]) -> bool
    ensures { result ≡ is_host host.now }
{
    !host.is_empty() && all_in_host(host)
}

fn all_in_host(text: &[u8]) -> bool
    ensures { result ≡ list_all is_host_byte text.now }
{
    text.iter().all(|byte| is_host_byte(*byte))
}

fn is_host_byte(byte: u8) -> bool
    ensures { result ≡ is_host_byte byte }
{
    matches!(byte, b'a'..=b'z' | b'0'..=b'9' | b'.' | b':' | b'-')
}
