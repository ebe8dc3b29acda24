//! What is answered to the words: a status, and the text to be told.

ghost use Rattle.std.specs.Prelude.{◌≡◌, ◌+◌, ◌≤◌, IfOk, IfErr, IfSome, Err, map, string_bytes};
ghost use Rattle.xn_bytes.specs.Causes.{Rose};
ghost use Rattle.xn_rules.specs.Outcome.{Answers, Reads, ReadsImage, geometry_in};
ghost use Rattle.xn_meaning.specs.Manifests.{HasPlaces};
ghost use Rattle.xn_meaning.specs.Replies as texts;
ghost use Rattle.xn_meaning.specs.declared.status.Status.TheVariants.{Image};
ghost use Rattle.xn_meaning.specs.Words.{AsksNothing};
ghost use Rattle.xn_machine.specs.Frames.{MachineStays};
ghost use Rattle.xn_text.specs.Viewed.{reply_of};
ghost use Rattle.xfsns.specs.Answer.{EndsWith, IsAnswerTo, ReadsFor, CommandReads, ReadsAtMost, HasReadCause, ReadRose, IsOfWhole, IsOfImage};
ghost use Rattle.xfsns.specs.Home.{end_said};
ghost use Rattle.xfsns.specs.declared.answer.Fault.TheVariants.{Read, Memory};

use crate::home::{Said, ask_image, read_super};
use crate::manifest::{Found, read_manifest};
use std::alloc::{AllocError, Global};
use xn_bytes::Memory as OutOfMemory;
use xn_check::pool_of;
use xn_machine::{Failed, Machine, Source};
use xn_meaning::Status;
use xn_ns::SeeFault;
use xn_text::{
    Manifest, Reply, Words, WordsFault, image_line, manifest_line, summary_line, usage_line,
};

/// A status, and the text to be told with it.
#[derive(Debug, Drop)]
pub struct Answer {
    pub status: Status,
    pub text: Vec<u8>,
}

/// Why there is no answer.
#[derive(Clone, Copy, Debug, PartialEq, Eq)]
pub enum Fault {
    /// A read of the machine or of the manifest failed.
    Read,
    /// Memory ran out.
    Memory,
}

impl From<Failed> for Fault {
    ghost from_gives = { λ _ fault. fault ≡ Read };

    fn from(_: Failed) -> Fault {
        Fault::Read
    }
}

impl From<AllocError> for Fault {
    ghost from_gives = { λ _ fault. fault ≡ Memory };

    fn from(_: AllocError) -> Fault {
        Fault::Memory
    }
}

impl From<OutOfMemory> for Fault {
    ghost from_gives = { λ _ fault. fault ≡ Memory };

    fn from(_: OutOfMemory) -> Fault {
        Fault::Memory
    }
}

/// The answer to the words over the manifest and the machine's image.
pub fn answer_words<M: Machine, F: Source>(
    alloc: Global,
    words: &[String],
    machine: &mut M,
    source: &mut F,
) -> Result<Answer, Fault>
    ensures stays { MachineStays M.Machine machine.old machine.new }
    ensures faults { F.faults source.old ≤ F.faults source.new }
    ensures reads { ReadsFor (map string_bytes words.now) (F.left source.old) (M.image machine.old) (M.reads machine.old) (M.reads machine.new) }
    ensures reads_nothing { AsksNothing (map string_bytes words.now) → (M.reads machine.new ≡ M.reads machine.old) × (source.new ≡ source.old) }
    ensures answer { IfOk result (λ answer. Answers (map string_bytes words.now) (F.left source.old) (M.image machine.old) answer.status answer.text.items) }
    ensures whole { IfOk result (λ answer. IsOfWhole answer.status (F.left source.new)) }
    ensures cause { IfErr result (HasReadCause (map string_bytes words.now) (F.left source.old) (M.read_faults machine.old) (M.read_faults machine.new) (F.faults source.old) (F.faults source.new)) }
{
    match Words::read(alloc, words) {
        Ok(command) => answer_command(alloc, machine, source, &command),
        Err(WordsFault::Usage) => Ok(Answer {
            status: Status::Usage,
            text: usage_line(alloc)?,
        }),
        Err(WordsFault::Memory) => Err(Fault::Memory),
    }
}

/// The answer to a command over the manifest and the machine's image.
fn answer_command<M: Machine, F: Source>(
    alloc: Global,
    machine: &mut M,
    source: &mut F,
    command: &Words,
) -> Result<Answer, Fault>
    ensures stays { MachineStays M.Machine machine.old machine.new }
    ensures faults { F.faults source.old ≤ F.faults source.new }
    ensures reads { CommandReads command.now (F.left source.old) (M.image machine.old) (M.reads machine.old) (M.reads machine.new) }
    ensures answer { IfOk result (λ answer. Reads (EndsWith command.now) (F.left source.old) (M.image machine.old) answer.status answer.text.items) }
    ensures whole { IfOk result (λ answer. IsOfWhole answer.status (F.left source.new)) }
    ensures cause { IfErr result (λ fault. fault ≡ Read → ReadRose (F.left source.old) (M.read_faults machine.old) (M.read_faults machine.new) (F.faults source.old) (F.faults source.new)) }
{
    match read_manifest(alloc, source)? {
        Found::Manifest(manifest) => answer_by(alloc, machine, &manifest, command),
        Found::Outside { line } => Ok(Answer {
            status: Status::Manifest,
            text: manifest_line(alloc, line)?,
        }),
        Found::Long => Ok(Answer {
            status: Status::Long,
            text: Vec::new(alloc),
        }),
    }
}

/// The answer to a command over the machine's image, by a manifest.
fn answer_by<M: Machine>(
    alloc: Global,
    machine: &mut M,
    manifest: &Manifest,
    command: &Words,
) -> Result<Answer, Fault>
    ensures stays { MachineStays M.Machine machine.old machine.new }
    ensures reads { IfSome (M.image machine.old) (λ x. ReadsAtMost command.now (geometry_in x) manifest.now x (M.reads machine.old + 1) (M.reads machine.new)) }
    ensures answer { IfOk result (λ answer. ReadsImage (EndsWith command.now) manifest.now (M.image machine.old) answer.status answer.text.items) }
    ensures kind { IfOk result (λ answer. IsOfImage answer.status) }
    ensures cause { IfErr result (λ fault. fault ≡ Read → Rose (M.read_faults machine.old) (M.read_faults machine.new)) }
{
    let Some(geometry) = read_super(machine)? else {
        return broken(alloc, 1);
    };
    let Some(pool) = pool_of(alloc, &geometry, manifest)? else {
        return broken(alloc, 2);
    };
    let ended = ask_image(alloc, machine, &geometry, manifest, pool, command);
    answer_of(alloc, ended)
}

/// The answer where a rule of the whole image is broken.
fn broken(alloc: Global, rule: u8) -> Result<Answer, Fault>
    ensures answer { IfOk result (λ answer. (answer.status ≡ Image) × (answer.text.items ≡ texts.image_line rule 0 0)) }
    ensures memory { IfErr result (λ fault. fault ≡ Memory) }
{
    Ok(Answer {
        status: Status::Image,
        text: image_line(alloc, rule, 0, 0)?,
    })
}

/// The answer to a command that ended so.
fn answer_of(alloc: Global, ended: Result<Said, SeeFault>) -> Result<Answer, Fault>
    ensures answer { IfOk result (λ answer. IsAnswerTo (end_said ended) answer.status answer.text.items) }
    ensures kind { IfOk result (λ answer. IsOfImage answer.status) }
    ensures read { IfErr result (λ fault. fault ≡ Read → ended ≡ Err SeeFault.Read) }
{
    match ended {
        Ok(Said::Reply(reply)) => Ok(Answer {
            status: Status::Done,
            text: text_of(alloc, &reply)?,
        }),
        Ok(Said::Summary(summary)) => Ok(Answer {
            status: Status::Done,
            text: summary_line(alloc, &summary)?,
        }),
        Err(SeeFault::Broken { rule, inode, block }) => Ok(Answer {
            status: Status::Image,
            text: image_line(alloc, rule, inode, block)?,
        }),
        Err(SeeFault::Read) => Err(Fault::Read),
        Err(SeeFault::Memory) => Err(Fault::Memory),
    }
}

/// The text of a reply.
fn text_of(alloc: Global, reply: &Reply) -> Result<Vec<u8>, OutOfMemory>
    ensures { IfOk result (λ text. text.items ≡ texts.reply_text (reply_of reply.now)) }
{
    let mut text = Vec::new(alloc);
    reply.write(alloc, &mut text)?;
    Ok(text)
}
