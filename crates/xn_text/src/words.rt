ghost use Rattle.std.specs.Prelude.{◌≡◌, ◌≢◌, ◌<◌, ◌^◌, ◌∷◌, ◌↔◌, ℕ, IsTrue, All, IfOk, IfErr, List, decimal, length, map, string_bytes};
ghost use Rattle.xn_bytes.specs.Escapes.{escaped};
ghost use Rattle.xn_meaning.specs.Words.{IsWord, AsksNothing};
ghost use Rattle.xn_text.specs.Asked.{AsksFor, IsRefusal};
ghost use Rattle.xn_text.specs.declared.words.WordsFault.TheVariants.{Usage, Memory};

use crate::arguments::split;
use crate::number::read_decimal;
use std::alloc::{AllocError, Global};
use xn_bytes::{Bytes, EscapeFault, unescape};

/// The forms of words and what each is for, a line each.
pub const FORMS: &str = "\
xfsns list IMAGE MANIFEST INO: a directory's entries
xfsns resolve IMAGE MANIFEST PATH: the inode that a path leads to
xfsns parents IMAGE MANIFEST INO: the entries that name an inode
xfsns check IMAGE MANIFEST: whether all rules hold, or which is broken first
";

/// What the words ask for.
#[derive(Debug, Drop)]
pub enum Words {
    /// `list IMAGE MANIFEST INO`
    List { ino: u64 },
    /// `resolve IMAGE MANIFEST PATH`, the path unescaped.
    Resolve { path: Bytes },
    /// `parents IMAGE MANIFEST INO`
    Parents { ino: u64 },
    /// `check IMAGE MANIFEST`
    Check,
}

/// Why words were not read.
#[derive(Clone, Copy, Debug, PartialEq, Eq)]
pub enum WordsFault {
    /// They are none of the forms.
    Usage,
    /// Memory ran out.
    Memory,
}

impl From<AllocError> for WordsFault {
    ghost from_gives = { λ _ fault. fault ≡ Memory };

    fn from(_: AllocError) -> WordsFault {
        WordsFault::Memory
    }
}

impl From<EscapeFault> for WordsFault {
    ghost from_gives = { λ escape fault. IsRefusal escape fault };

    fn from(fault: EscapeFault) -> WordsFault {
        match fault {
            EscapeFault::Bad { .. } => WordsFault::Usage,
            EscapeFault::Memory => WordsFault::Memory,
        }
    }
}

impl Words {
    /// Reads the words after the program's name.
    pub fn read(alloc: Global, words: &[String]) -> Result<Words, WordsFault>
        ensures ok { IfOk result (AsksFor (map string_bytes words.now)) }
        ensures err { IfErr result (λ fault. fault ≡ Usage → AsksNothing (map string_bytes words.now)) }
    {
        if !are_words(words) {
            return Err(WordsFault::Usage);
        }
        let matches = split(alloc, words)?;
        match (matches.get_str("command"), matches.get_strs("rest")) {
            (Some(command), Some(rest)) => read_arguments(alloc, command, rest),
            _ => Err(WordsFault::Usage),
        }
    }
}

fn are_words(words: &[String]) -> bool
    ensures { IsTrue result ↔ All (λ word. IsWord (string_bytes word)) words.now }
{
    words.iter().all(is_word)
}

/// Whether a word has bytes, the first of them no `-`.
fn is_word(word: &String) -> bool
    ensures { IsTrue result ↔ IsWord (string_bytes word.now) }
{
    match word.as_bytes().first() {
        Some(first) => *first != b'-',
        None => false,
    }
}

/// Reads the word of an inode.
fn read_ino(word: &str) -> Result<u64, WordsFault>
    ensures ok { IfOk result (λ ino. word.now ≡ decimal ino) }
    ensures err { IfErr result (λ fault. fault ≡ Usage → (ino : ℕ) → ino < 2 ^ 64 → word.now ≢ decimal ino) }
{
    read_decimal(word).ok_or(WordsFault::Usage)
}

/// Reads the word of a path.
fn read_path(alloc: Global, word: &str) -> Result<Bytes, WordsFault>
    ensures text { IfOk result (λ path. word.now ≡ escaped path) }
    ensures bytes { IfOk result (All (λ byte. byte < 256)) }
    ensures err { IfErr result (λ fault. fault ≡ Usage → (path : List ℕ) → All (λ byte. byte < 256) path → word.now ≢ escaped path) }
{
    Ok(Bytes::new(unescape(alloc, word.as_bytes())?))
}

/// Compares a command and the words after it with the forms.
fn read_arguments(alloc: Global, command: &str, rest: &[&str]) -> Result<Words, WordsFault>
    requires { All (λ word. IsWord word.now) rest.now }
    ensures ok { IfOk result (AsksFor (command.now ∷ map (λ word. word.now) rest.now)) }
    ensures err { IfErr result (λ fault. fault ≡ Usage → AsksNothing (command.now ∷ map (λ word. word.now) rest.now)) }
{
    if rest.len() == 2 {
        return read_check(command, rest);
    }
    let [_, _, last] = rest else {
        return Err(WordsFault::Usage);
    };
    if command == "list" {
        let ino = read_ino(last)?;
        return Ok(Words::List { ino });
    }
    if command == "parents" {
        let ino = read_ino(last)?;
        return Ok(Words::Parents { ino });
    }
    if command == "resolve" {
        let path = read_path(alloc, last)?;
        return Ok(Words::Resolve { path });
    }
    Err(WordsFault::Usage)
}

/// Compares a command that has no word behind image and manifest with the one form that is so.
fn read_check(command: &str, rest: &[&str]) -> Result<Words, WordsFault>
    requires words { All (λ word. IsWord word.now) rest.now }
    requires two { length rest.now ≡ 2 }
    ensures ok { IfOk result (AsksFor (command.now ∷ map (λ word. word.now) rest.now)) }
    ensures err { IfErr result (λ fault. fault ≡ Usage → AsksNothing (command.now ∷ map (λ word. word.now) rest.now)) }
{
    if command == "check" {
        Ok(Words::Check)
    } else {
        Err(WordsFault::Usage)
    }
}
