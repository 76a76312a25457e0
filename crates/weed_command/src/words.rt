ghost use Rattle.std.specs.Prelude.{◌≡◌, Ok, Err, Some, MatchResult, option_and_then, if◌then◌else◌, drop, None};
ghost use Rattle.std.specs.Option.{option_map};
ghost use Rattle.weed_command.specs.Words.{order_of, directory_of, dir_of, is_command, is_dir_flag};

use thiserror::Error;
use weed_base::Word;

/// What a command line asks for.
#[derive(Clone, Copy, Debug, PartialEq, Eq)]
pub enum Order<'a> {
    /// Answers the requests of the input over the directory at that place.
    FilerOnce { dir: &'a [u8] },
}

/// The first word that is missing or bad, counted from 0.
#[derive(Clone, Copy, Debug, PartialEq, Eq, Error)]
#[error("bad word {place}")]
pub struct BadWords {
    pub place: u32,
}

/// Reads `filer.once` and `-dir=` before 1 to 1,024 bytes. Takes no memory.
pub fn read_words(words: &[Word]) -> Result<Order<'_>, BadWords>
    ensures { MatchResult result
        (λ order. order_of words.now ≡ Ok (dir_of order))
        (λ bad. order_of words.now ≡ Err bad.place) }
{
    match words {
        [command, flags @ ..] if names_filer_once(command) => read_flags(flags),
        _ => Err(BadWords { place: 0 }),
    }
}

fn names_filer_once(word: &Word) -> bool
    ensures { result ≡ is_command word.now }
{
    word.as_slice() == b"filer.once".as_slice()
}

fn read_flags(flags: &[Word]) -> Result<Order<'_>, BadWords>
    ensures { MatchResult result
        (λ order. directory_of flags.now ≡ Ok (dir_of order))
        (λ bad. directory_of flags.now ≡ Err bad.place) }
{
    let [flag, more @ ..] = flags else {
        return Err(BadWords { place: 1 });
    };
    let Some(dir) = dir_value(flag) else {
        return Err(BadWords { place: 1 });
    };
    if !more.is_empty() {
        return Err(BadWords { place: 2 });
    }
    Ok(Order::FilerOnce { dir })
}

fn dir_value(flag: &Word) -> Option<&[u8]>
    ensures { option_map (λ dir. dir.now) result ≡ (if is_dir_flag flag.now then Some (drop 5 flag.now) else None) }
{
    let dir = flag.as_slice().strip_prefix(b"-dir=")?;
    (!dir.is_empty() && dir.len() <= 1024).then_some(dir)
}
