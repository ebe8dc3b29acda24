//! Rows of a table.

ghost use Rattle.std.specs.Prelude.{◌≡◌, ◌%◌, length, IfOk};

use crate::words::words_of;
use crate::{RowFault, image, manifest};
use std::alloc::Global;

/// A row: what the program is run on, and what it has to answer.
#[derive(Clone, Copy, Debug)]
pub struct Row<'a> {
    words: &'a str,
    image: &'a str,
    status: &'a str,
    told: &'a str,
}

impl<'a> Row<'a> {
    /// The row that a line is, if it is one: blank lines are none, nor are those that begin with `#`.
    pub fn read(line: &'a str) -> Result<Option<Row<'a>>, RowFault> {
        if line.trim().is_empty() || line.starts_with('#') {
            return Ok(None);
        }
        let (words, rest) = line.split_once('|').ok_or(RowFault::Fields)?;
        let (image, answer) = rest.split_once('|').ok_or(RowFault::Fields)?;
        let answer = answer.trim();
        let (status, told) = answer.split_once(' ').unwrap_or((answer, ""));
        Ok(Some(Row {
            words,
            image,
            status,
            told,
        }))
    }

    /// The words that the program is given.
    pub fn words(&self, alloc: Global) -> Result<Vec<String>, RowFault> {
        words_of(alloc, self.words)
    }

    /// The image that it is run on.
    pub fn image(&self, alloc: Global) -> Result<Vec<u8>, RowFault>
        ensures { IfOk result (λ image. length image.items % 512 ≡ 0) }
    {
        image(alloc, self.image)
    }

    /// The text of its manifest.
    pub fn manifest(&self, alloc: Global) -> Result<Vec<u8>, RowFault> {
        manifest(alloc, self.image)
    }

    /// The numbers of the device's calls that fail.
    pub fn fails(&self, alloc: Global) -> Result<Vec<u64>, RowFault> {
        let mut fails = Vec::new(alloc);
        for word in self.image.split_whitespace() {
            if let Some(("fails", call)) = word.split_once(':') {
                fails.push(call.parse()?)?;
            }
        }
        Ok(fails)
    }

    /// The exit status that is wanted.
    pub fn status(&self) -> Result<u8, RowFault> {
        Ok(self.status.parse()?)
    }

    /// What has to be told.
    pub fn told(&self, alloc: Global) -> Result<String, RowFault> {
        let mut told = String::new(alloc);
        if self.told.is_empty() {
            return Ok(told);
        }
        for line in self.told.split(" / ") {
            told.push_str(line)?;
            told.push_str("\n")?;
        }
        Ok(told)
    }
}
