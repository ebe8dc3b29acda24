//! The program's one call: words, machine and sources in, a status out.

ghost use Rattle.std.specs.Prelude.{◌≡◌, ℕ, ◌+◌, ◌*◌, ◌≤◌, List, IfSome, length, map, string_bytes};
ghost use Rattle.xn_rules.specs.Outcome.{Outcome, geometry_in, outside_of};
ghost use Rattle.xn_bytes.specs.Inode.{inode_of};
ghost use Rattle.xn_bytes.specs.Costs.{list_cost};
ghost use Rattle.xn_attr.specs.Costs.{list_most};
ghost use Rattle.xn_meaning.specs.Words.{AsksList, AsksResolve, AsksParents, AsksNothing};
ghost use Rattle.xfsns.specs.Answer.{RefusedReads, ResolveReads};
ghost use Rattle.xfsns.specs.Top.{TellsOrFails};

use crate::answer::{Answer, Fault, answer_words};
use std::alloc::Global;
use xn_machine::{Machine, Source};
use xn_meaning::Status;

/// Answers the words after the program's name over the manifest and the machine's image, and tells the answer on its output.
///
/// `list IMAGE MANIFEST INO` lists a directory in any of its forms. `resolve IMAGE MANIFEST PATH` walks a path from the
/// root and tells the inode to which it leads. `parents IMAGE MANIFEST INO` tells the entries that name an inode, by its parent
/// records. `check IMAGE MANIFEST` tells the first rule that is broken, or a summary of the image where all hold. The two files are
/// the machine's and the manifest's. The manifest is read to its end before the image is; the script is not read.
pub fn xfsns<M: Machine, F: Source, S: Source>(
    alloc: Global,
    words: &[String],
    machine: &mut M,
    manifest: &mut F,
    _script: &mut S,
) -> Status
    // The status and what is newly told are the answer to the words over the manifest and the image, but for want of memory
    // and for a fault of the outside whose count rose.
    ensures outcome { Outcome (map string_bytes words.now)
        (outside_of M.image M.told M.read_faults M.say_faults F.left F.faults machine.old manifest.old)
        (outside_of M.image M.told M.read_faults M.say_faults F.left F.faults machine.new manifest.new)
        result }

    // The image stays as it is, and no count of faults falls.
    ensures image { M.image machine.new ≡ M.image machine.old }
    ensures sectors { M.sector_count machine.new ≡ M.sector_count machine.old }
    ensures read_faults { M.read_faults machine.old ≤ M.read_faults machine.new }
    ensures write_faults { M.write_faults machine.old ≤ M.write_faults machine.new }
    ensures say_faults { M.say_faults machine.old ≤ M.say_faults machine.new }
    ensures manifest_faults { F.faults manifest.old ≤ F.faults manifest.new }

    // Whatever the status is, a list reads the superblock, the inode twice, and the directory's blocks once each at most, and of
    // what is no attached directory the inode once; a path the superblock and, for each part, the inode and what a look-up
    // costs; parents the superblock, the inode, and each mapped block of its attribute fork once at most.
    ensures reads_list { (ino : ℕ) → AsksList (map string_bytes words.now) ino → IfSome (M.image machine.old) (λ x. M.reads machine.new ≤ M.reads machine.old + 2 + list_cost (inode_of (geometry_in x) x ino)) }
    ensures reads_refused { (ino : ℕ) → AsksList (map string_bytes words.now) ino → RefusedReads (F.left manifest.old) (M.image machine.old) ino (M.reads machine.old) (M.reads machine.new) }
    ensures reads_resolve { (path : List ℕ) → AsksResolve (map string_bytes words.now) path → ResolveReads (F.left manifest.old) (M.image machine.old) path (M.reads machine.old) (M.reads machine.new) }
    ensures reads_parents { (ino : ℕ) → AsksParents (map string_bytes words.now) ino → IfSome (M.image machine.old) (λ x. M.reads machine.new ≤ M.reads machine.old + 1 + list_most (inode_of (geometry_in x) x ino)) }
    ensures reads_nothing { AsksNothing (map string_bytes words.now) → (M.reads machine.new ≡ M.reads machine.old) × (manifest.new ≡ manifest.old) }

    // The script is not read.
    ensures script { _script.new ≡ _script.old }
{
    match answer_words(alloc, words, machine, manifest) {
        Ok(answer) => tell(machine, &answer),
        Err(Fault::Read) => Status::ReadFault,
        Err(Fault::Memory) => Status::Memory,
    }
}

/// Tells an answer.
fn tell<M: Machine>(machine: &mut M, answer: &Answer) -> Status
    ensures told { TellsOrFails M.told M.say_faults machine.old machine.new answer.now.status answer.now.text.items result }
    ensures image { M.image machine.new ≡ M.image machine.old }
    ensures sectors { M.sector_count machine.new ≡ M.sector_count machine.old }
    ensures reads { M.reads machine.new ≡ M.reads machine.old }
    ensures read_faults { M.read_faults machine.old ≤ M.read_faults machine.new }
    ensures write_faults { M.write_faults machine.old ≤ M.write_faults machine.new }
    ensures say_faults { M.say_faults machine.old ≤ M.say_faults machine.new }
{
    if answer.text.is_empty() {
        return answer.status;
    }
    match machine.say(&answer.text) {
        Ok(()) => answer.status,
        Err(_) => Status::SayFault,
    }
}
