//! What a person is told on standard error, beside the exit status.

use std::fmt::Display;
use std::io;
use xn_meaning::Status;
use xn_text::FORMS;

/// Says which forms there are where the words are none of them, and what failed where the status tells nothing of its own.
/// `reads` are what is read, by their words, and why a read failed; `telling` is why telling did.
pub fn explain<R: Eprint>(
    rt: &R,
    status: Status,
    reads: &[(&str, Option<io::Error>)],
    telling: Option<io::Error>,
) {
    match status {
        Status::Usage => say(rt, FORMS),
        Status::ReadFault => {
            for (word, reason) in reads {
                say_failure(rt, "read", word, *reason);
            }
        }
        Status::SayFault => say_failure(rt, "write", "standard output", telling),
        Status::Memory => say(rt, "out of memory\n"),
        Status::Long => say(rt, "the manifest has more than 1048576 bytes\n"),
        Status::Done | Status::Image | Status::Manifest => {}
    }
}

/// Says that a file can't be opened, and why on a line of its own.
pub fn cannot_open<R: Eprint>(rt: &R, word: &str, reason: io::Error) {
    say(rt, format_args!("cannot open {word}\n{reason}\n"));
}

fn say_failure<R: Eprint>(rt: &R, call: &str, word: &str, reason: Option<io::Error>) {
    if let Some(reason) = reason {
        say(rt, format_args!("cannot {call} {word}: {reason}\n"));
    }
}

fn say<R: Eprint, D: Display + Drop>(rt: &R, text: D) {
    // Nobody is left to tell that this could not be told.
    let _ = rt.eprint(text);
}
