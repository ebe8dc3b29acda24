//! A manifest's text, written.

ghost use Rattle.std.specs.Prelude.{◌≡◌, ◌++◌, IfOk, OnOk, OnErr, length, take, flat_map, string_bytes};
ghost use Rattle.xn_meaning.specs.Manifests.{manifest_text};
ghost use Rattle.xn_text.specs.Writing.{chunk_text, run_text};

use crate::Manifest;
use crate::reader::HEADER;
use std::alloc::Global;
use xn_bytes::Memory;

impl Manifest {
    /// Appends the manifest's text: the header, a line for each chunk and a line for each run, each with a newline behind it.
    /// Without memory nothing is appended.
    pub fn write(&self, alloc: Global, out: &mut Vec<u8>) -> Result<(), Memory>
        ensures ok { OnOk result (out.new.items ≡ out.old.items ++ manifest_text self.now) }
        ensures err { OnErr result (out.new.items ≡ out.old.items) }
    {
        let before = out.len();
        let written = write_lines(alloc, self, out);
        if written.is_err() {
            out.truncate(before);
        }
        written
    }
}

/// Appends the lines, or a part of them.
fn write_lines(alloc: Global, manifest: &Manifest, out: &mut Vec<u8>) -> Result<(), Memory>
    ensures ok { OnOk result (out.new.items ≡ out.old.items ++ manifest_text manifest.now) }
    ensures err { OnErr result (take (length out.old.items) out.new.items ≡ out.old.items) }
{
    out.extend_from_slice(HEADER)?;
    out.push(b'\n')?;
    write_chunks(alloc, manifest.chunks(), out)?;
    write_runs(alloc, manifest.runs(), out)
}

fn write_chunks(alloc: Global, chunks: &[(u64, u64)], out: &mut Vec<u8>) -> Result<(), Memory>
    ensures ok { OnOk result (out.new.items ≡ out.old.items ++ flat_map chunk_text chunks.now) }
    ensures err { OnErr result (take (length out.old.items) out.new.items ≡ out.old.items) }
{
    for chunk in chunks {
        let line = chunk_line(alloc, *chunk)?;
        out.extend_from_slice(line.as_bytes())?;
    }
    Ok(())
}

fn write_runs(alloc: Global, runs: &[(u64, u64)], out: &mut Vec<u8>) -> Result<(), Memory>
    ensures ok { OnOk result (out.new.items ≡ out.old.items ++ flat_map run_text runs.now) }
    ensures err { OnErr result (take (length out.old.items) out.new.items ≡ out.old.items) }
{
    for run in runs {
        let line = run_line(alloc, *run)?;
        out.extend_from_slice(line.as_bytes())?;
    }
    Ok(())
}

fn chunk_line(alloc: Global, chunk: (u64, u64)) -> Result<String, Memory>
    ensures { IfOk result (λ line. string_bytes line ≡ chunk_text chunk) }
{
    let (start, mask) = chunk;
    Ok(format!(in alloc; "chunk {start} {mask:016x}\n")?)
}

fn run_line(alloc: Global, run: (u64, u64)) -> Result<String, Memory>
    ensures { IfOk result (λ line. string_bytes line ≡ run_text run) }
{
    let (block, count) = run;
    Ok(format!(in alloc; "pool {block} {count}\n")?)
}
