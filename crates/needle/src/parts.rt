ghost use Rattle.std.specs.Prelude.{◌≡◌, option_map, option_copied};
ghost use Rattle.needle.specs.Reading.{short_at, long_at, five_at, bytes_at, body_at, has_flag, part_at, parts_at, contents_at, told_at, contents_of};

/// The flag of a name.
pub(crate) const NAME: u8 = 0x02;

/// The flag of a media type.
pub(crate) const MIME: u8 = 0x04;

/// The flag of a time of change.
pub(crate) const MODIFIED: u8 = 0x08;

/// The flag of a time to live.
pub(crate) const TTL: u8 = 0x10;

/// The flag of pairs.
pub(crate) const PAIRS: u8 = 0x20;

/// What the size counts of a needle, where it lies.
#[derive(Clone, Copy)]
pub(crate) struct Parts<'a> {
    pub(crate) body: &'a [u8],
    pub(crate) flags: u8,
    pub(crate) name: Option<&'a [u8]>,
    pub(crate) mime: Option<&'a [u8]>,
    pub(crate) modified: Option<u64>,
    pub(crate) ttl: Option<[u8; 2]>,
    pub(crate) pairs: Option<&'a [u8]>,
}

/// That many bytes, and those behind them.
fn split(count: usize, bytes: &[u8]) -> Option<(&[u8], &[u8])>
    ensures { option_map (λ x. (x.0.now, x.1.now)) result ≡ bytes_at count bytes.now }
{
    if bytes.len() < count {
        return None;
    }
    Some(bytes.split_at(count))
}

/// Bytes with their length in one byte.
#[tactic(auto, unfolding(crate::specs::Reading::short_at))]
fn short(bytes: &[u8]) -> Option<(&[u8], &[u8])>
    ensures { option_map (λ x. (x.0.now, x.1.now)) result ≡ short_at bytes.now }
{
    match bytes {
        [] => None,
        [len, rest @ ..] => split(usize::from(*len), rest),
    }
}

/// Bytes with their length in two bytes.
#[tactic(auto, unfolding(crate::specs::Reading::long_at))]
fn long(bytes: &[u8]) -> Option<(&[u8], &[u8])>
    ensures { option_map (λ x. (x.0.now, x.1.now)) result ≡ long_at bytes.now }
{
    let (len, rest) = split(2, bytes)?;
    split(usize::from(u16::from_be_bytes([len[0], len[1]])), rest)
}

/// A number of five bytes.
#[tactic(auto, unfolding(crate::specs::Reading::five_at))]
fn five(bytes: &[u8]) -> Option<(u64, &[u8])>
    ensures { option_map (λ x. (x.0, x.1.now)) result ≡ five_at bytes.now }
{
    let (five, rest) = split(5, bytes)?;
    let number = u64::from_be_bytes([0, 0, 0, five[0], five[1], five[2], five[3], five[4]]);
    Some((number, rest))
}

/// Data with its length in four bytes.
#[tactic(auto, unfolding(crate::specs::Reading::body_at))]
fn body(bytes: &[u8]) -> Option<(&[u8], &[u8])>
    ensures { option_map (λ x. (x.0.now, x.1.now)) result ≡ body_at bytes.now }
{
    let (len, rest) = split(4, bytes)?;
    let len = u32::from_be_bytes([len[0], len[1], len[2], len[3]]);
    if len == 0 {
        return None;
    }
    split(len as usize, rest)
}

fn short_part(is_set: bool, bytes: &[u8]) -> Option<(Option<&[u8]>, &[u8])>
    ensures { option_map (λ x. (option_copied x.0, x.1.now)) result ≡ part_at is_set short_at bytes.now }
{
    if !is_set {
        return Some((None, bytes));
    }
    let (part, rest) = short(bytes)?;
    Some((Some(part), rest))
}

fn long_part(is_set: bool, bytes: &[u8]) -> Option<(Option<&[u8]>, &[u8])>
    ensures { option_map (λ x. (option_copied x.0, x.1.now)) result ≡ part_at is_set long_at bytes.now }
{
    if !is_set {
        return Some((None, bytes));
    }
    let (part, rest) = long(bytes)?;
    Some((Some(part), rest))
}

fn five_part(is_set: bool, bytes: &[u8]) -> Option<(Option<u64>, &[u8])>
    ensures { option_map (λ x. (x.0, x.1.now)) result ≡ part_at is_set five_at bytes.now }
{
    if !is_set {
        return Some((None, bytes));
    }
    let (part, rest) = five(bytes)?;
    Some((Some(part), rest))
}

fn two_part(is_set: bool, bytes: &[u8]) -> Option<(Option<[u8; 2]>, &[u8])>
    ensures { option_map (λ x. (x.0, x.1.now)) result ≡ part_at is_set (bytes_at 2) bytes.now }
{
    if !is_set {
        return Some((None, bytes));
    }
    let (part, rest) = split(2, bytes)?;
    Some((Some([part[0], part[1]]), rest))
}

/// The flag is set.
pub(crate) fn has(flags: u8, flag: u8) -> bool
    ensures { result ≡ has_flag flags flag }
{
    flags & flag != 0
}

/// The parts behind the flags.
#[tactic(auto, unfolding(crate::specs::Reading::parts_at))]
fn flagged_parts<'a>(body: &'a [u8], flags: u8, bytes: &'a [u8]) -> Option<(Parts<'a>, &'a [u8])>
    ensures { option_map (λ x. (contents_of x.0, x.1.now)) result ≡ parts_at body.now flags bytes.now }
{
    let (name, rest) = short_part(has(flags, NAME), bytes)?;
    let (mime, rest) = short_part(has(flags, MIME), rest)?;
    let (modified, rest) = five_part(has(flags, MODIFIED), rest)?;
    let (ttl, rest) = two_part(has(flags, TTL), rest)?;
    let (pairs, rest) = long_part(has(flags, PAIRS), rest)?;
    let parts = Parts {
        body,
        flags,
        name,
        mime,
        modified,
        ttl,
        pairs,
    };
    Some((parts, rest))
}

impl<'a> Parts<'a> {
    /// The parts of these bytes, where they fill them.
    #[tactic(auto, unfolding(crate::specs::Reading::contents_at))]
    pub(crate) fn read(bytes: &'a [u8]) -> Option<Parts<'a>>
        ensures { option_map contents_of result ≡ contents_at bytes.now }
    {
        let (body, rest) = body(bytes)?;
        Self::behind(body, rest)
    }

    /// The parts of a body and of the bytes behind it, where they fill these.
    #[tactic(auto, unfolding(crate::specs::Reading::told_at))]
    pub(crate) fn behind(body: &'a [u8], bytes: &'a [u8]) -> Option<Parts<'a>>
        ensures { option_map contents_of result ≡ told_at body.now bytes.now }
    {
        let (flags, rest) = split(1, bytes)?;
        let (parts, rest) = flagged_parts(body, flags[0], rest)?;
        if !rest.is_empty() {
            return None;
        }
        Some(parts)
    }
}
