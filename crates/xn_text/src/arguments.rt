//! The words as `clap` reads them: a simple command with a positional for the command and one for what follows.

ghost use Rattle.std.specs.Prelude.{◌≡◌, ◌≢◌, ◌<◌, All, IfOk, IfErr, length, map, string_bytes};
ghost use Rattle.clap.specs.Words.{app_of, kind_of};
ghost use Rattle.xn_meaning.specs.Words.{IsWord};
ghost use Rattle.xn_text.specs.Arguments.{IsSplit, reader_app};
ghost use Rattle.xn_text.specs.declared.words.WordsFault.TheVariants.{Usage};

use crate::WordsFault;
use clap::error::ErrorKind;
use clap::{Arg, ArgMatches, Command, Error};
use std::alloc::{AllocError, Global};

/// The first word as the command, and those after it, one at least, as the rest.
pub(crate) fn split<'a>(alloc: Global, words: &'a [String]) -> Result<ArgMatches<'a>, WordsFault>
    requires { All (λ word. IsWord (string_bytes word)) words.now }
    ensures ok { IfOk result (IsSplit (map string_bytes words.now)) }
    ensures err { IfErr result (λ fault. fault ≡ Usage → length words.now < 2) }
{
    match reader(alloc)?.try_get_matches_from(words) {
        Ok(matches) => Ok(matches),
        Err(error) => Err(fault_of(&error)),
    }
}

fn reader<'a>(alloc: Global) -> Result<Command<'a>, AllocError>
    ensures { IfOk result (λ command. app_of command ≡ reader_app) }
{
    let command = Arg::new(alloc, "command").required(true);
    let rest = Arg::new(alloc, "rest").required(true).num_args(1..);
    Command::new(alloc, "xfsns")
        .no_binary_name(true)
        .disable_help_flag(true)
        .arg(command)?
        .arg(rest)
}

/// Its texts are told to nobody.
fn fault_of(error: &Error) -> WordsFault
    ensures { result ≡ Usage → kind_of error.now ≢ ErrorKind.OutOfMemory }
{
    match error.kind() {
        ErrorKind::OutOfMemory => WordsFault::Memory,
        _ => WordsFault::Usage,
    }
}
