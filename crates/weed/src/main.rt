//! A file store's command line.
#![tactic(auto)]

use real_forms::{DirDisk, StandardError, StandardInput, StandardOutput, SystemClock};
use std::env;
use std::io::{self, Write};
use std::process::ExitCode;
use weed_base::{DiskHost, Word};
use weed_command::{Exit, World, weed};

/// What `weed --help` tells.
const USAGE: &[u8] = b"\
weed filer.once -dir=DIRECTORY
    answers the HTTP requests of standard input over the log in DIRECTORY, which is made where there is
    none, and ends
weed --help | help
weed --version

Statuses: 0 done, 1 bad word, 2 disk fault, 3 damaged, 5 read fault, 6 write fault, 7 out of memory,
15 turns spent.
";

const VERSION: &[u8] = b"weed 0.1.0\n";

fn main(rt: HostRuntime) -> ExitCode {
    let words = match words_of(rt) {
        Ok(words) => words,
        Err(error) => return end(rt, &exit_of(&error)),
    };
    match words.as_slice() {
        [word] if is_one_of(word, &[b"--help", b"help"]) => show(rt, USAGE),
        [word] if is_one_of(word, &[b"--version"]) => show(rt, VERSION),
        words => {
            let world = World {
                source: StandardInput::new(rt.stdin()),
                host: DiskHost::of(DirDisk::new(rt), StandardOutput::new(rt.stdout())),
                clock: SystemClock::new(rt),
            };
            let (exit, _) = weed(rt.alloc(), words, world);
            end(rt, &exit)
        }
    }
}

/// The words after the program's name.
fn words_of(rt: HostRuntime) -> io::Result<Vec<Word>> {
    let mut words = Vec::new(rt.alloc());
    for text in env::args(&rt)?.skip(1) {
        words.push(Word::new(rt.alloc(), text.as_bytes())?)?;
    }
    Ok(words)
}

/// Words that are no text are bad from the first on.
fn exit_of(error: &io::Error) -> Exit {
    match error.kind() {
        io::ErrorKind::OutOfMemory => Exit::Memory,
        _ => Exit::BadWords { place: 0 },
    }
}

fn is_one_of(word: &Word, texts: &[&[u8]]) -> bool {
    texts.iter().any(|text| word.as_slice() == *text)
}

fn show(rt: HostRuntime, text: &[u8]) -> ExitCode {
    match rt.stdout().write_all(text) {
        Ok(()) => ExitCode::SUCCESS,
        Err(_) => end(rt, &Exit::WriteFault),
    }
}

/// Tells of the end where there is a place to, and gives its status.
fn end(rt: HostRuntime, exit: &Exit) -> ExitCode {
    let _ = exit.tell(&mut StandardError::new(rt.stderr()));
    ExitCode::from(exit.status())
}
