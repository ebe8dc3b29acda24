//! Writes images of small file systems, into the folder that it runs in unless a path is given.
//!
//! Without words there are three, each with its manifest: `demo.img`, whose root directory is in short form and holds a few
//! names and a directory; `block.img`, whose root directory is in block form and holds eleven; and `sample.img`, which has 64
//! inodes that no name leads to, and a pool of 64 blocks. With `FILE IMAGE` it is one, written to that file; IMAGE is one word,
//! an image as `xn_rows` spells it, like `'block inode:129 19=01'`. With `FILE IMAGE MANIFEST` its manifest is written to the
//! file MANIFEST too.
#![tactic(auto)]

use anyhow::{Context, Result, anyhow, bail};
use std::alloc::Global;
use std::rt::Files;
use std::{env, fs};
use xn_make::{ROOT, sample};
use xn_rows::RowFault;
use xn_text::Manifest;

/// Of the 64 inodes from the root's on, those that `demo.img` doesn't have: it has 128, and 131 to 134.
const NOT_IN_DEMO: u64 = 0xffff_ffff_ffff_ff86;

/// The same of `block.img`: it has 128, 129, and 144 to 154.
const NOT_IN_BLOCK: u64 = 0xffff_ffff_f800_fffc;

/// How many inodes `sample.img` has, and how many blocks its pool.
const SAMPLE: u32 = 64;

fn main(rt: HostRuntime) -> Result<()> {
    let mut words = env::args(&rt)?.skip(1);
    let Some(file) = words.next() else {
        return write_demonstrations(&rt);
    };
    let Some(image) = words.next() else {
        bail!("there is no word for the image");
    };
    write_image(&rt, file.as_str(), image.as_str())?;
    match words.next() {
        Some(manifest) => write_manifest(&rt, manifest.as_str(), image.as_str()),
        None => Ok(()),
    }
}

/// Writes the image that words spell.
fn write_image<R: Files + AllocGlobal>(rt: &R, file: &str, words: &str) -> Result<()> {
    let image = made(rt.alloc(), words)?;
    fs::write(rt, file, &image).context("writing the image")
}

/// Writes the manifest of the image that words spell.
fn write_manifest<R: Files + AllocGlobal>(rt: &R, file: &str, words: &str) -> Result<()> {
    let text = xn_rows::manifest(rt.alloc(), words).map_err(not_made)?;
    fs::write(rt, file, &text).context("writing the manifest")
}

/// Writes the images of the demonstration.
fn write_demonstrations<R: Files + Print + AllocGlobal>(rt: &R) -> Result<()> {
    let alloc = rt.alloc();
    let manifest = manifest_without(alloc, NOT_IN_DEMO)?;
    write_demonstration(rt, "demo", &made(alloc, "demo")?, &manifest)?;
    let manifest = manifest_without(alloc, NOT_IN_BLOCK)?;
    write_demonstration(rt, "block", &made(alloc, "block")?, &manifest)?;
    let (image, manifest) = sample(alloc, SAMPLE, SAMPLE)
        .ok()
        .context("making the sample")?;
    write_demonstration(rt, "sample", &image, &manifest)
}

/// Writes the image of this name, and its manifest.
fn write_demonstration<R: Files + Print + AllocGlobal>(
    rt: &R,
    name: &str,
    image: &[u8],
    manifest: &Manifest,
) -> Result<()> {
    let alloc = rt.alloc();
    let file = format!(in alloc; "{name}.img")?;
    fs::write(rt, file.as_str(), image).context("writing the image")?;
    let mut text = Vec::new(alloc);
    manifest
        .write(alloc, &mut text)
        .ok()
        .context("making the manifest")?;
    let beside = format!(in alloc; "{name}.manifest")?;
    fs::write(rt, beside.as_str(), &text).context("writing the manifest")?;
    println!(rt; "{file} and {beside} are made; the root directory is inode {ROOT}")?;
    Ok(())
}

/// The manifest that lists the 64 inodes from the root's on but for those of a mask, and has no pool.
fn manifest_without(alloc: Global, mask: u64) -> Result<Manifest> {
    let chunks = vec![in alloc; (ROOT, mask)]?;
    Ok(Manifest::new(chunks, Vec::new(alloc)))
}

fn made(alloc: Global, words: &str) -> Result<Vec<u8>> {
    xn_rows::image(alloc, words).map_err(not_made)
}

fn not_made(fault: RowFault) -> anyhow::Error {
    anyhow!("the words spell no image or no manifest: {fault:?}")
}
