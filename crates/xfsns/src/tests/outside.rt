//! Faults of the outside, and the call over a file.

use super::{Asked, check_rows};
use crate::files::{FileMachine, FileSource};
use crate::xfsns;
use std::alloc::Global;
use std::fs;
use std::fs::File;
use std::test::Fail;
use xn_meaning::Status;

const ROWS: &str = r"
# the superblock is read, the inode, its mode and its block, and then the list is told
list IMAGE MANIFEST 128 | block fails:1 | 4
list IMAGE MANIFEST 128 | block fails:2 | 4
list IMAGE MANIFEST 128 | block fails:3 | 4
list IMAGE MANIFEST 128 | block fails:4 | 4
list IMAGE MANIFEST 128 | block fails:5 | 6
list IMAGE MANIFEST 128 | block fails:6 | 0 ok 11 / 144 reg entry-0001 / 145 reg entry-0002 / 146 reg entry-0003 / 147 reg entry-0004 / 148 reg entry-0005 / 149 reg entry-0006 / 150 reg entry-0007 / 151 reg entry-0008 / 152 reg entry-0009 / 153 reg entry-0010 / 154 reg entry-0011
list IMAGE MANIFEST 4608 | block fails:1 | 4
list IMAGE MANIFEST 4608 | block fails:2 | 6
resolve IMAGE MANIFEST /entry-0003 | block fails:1 | 4
resolve IMAGE MANIFEST /entry-0003 | block fails:4 | 4
resolve IMAGE MANIFEST /entry-0003 | block fails:5 | 6
resolve IMAGE MANIFEST /entry-0003 | block fails:6 | 0 ok 146 reg
resolve IMAGE MANIFEST / | block fails:2 | 6
| block fails:1 | 6
";

#[test]
fn faults_are_answered_where_they_come(rt: HostRuntime) {
    check_rows(&rt, Asked::Program, "outside", ROWS);
}

/// `list one.img MANIFEST 128`, or `resolve one.img MANIFEST /a`.
fn words_of(alloc: Global, command: &str, what: &str) -> Result<Vec<String>, Fail> {
    let mut words = Vec::new(alloc);
    for word in [command, "one.img", "MANIFEST", what] {
        words.push(String::from_str(alloc, word)?)?;
    }
    Ok(words)
}

#[test]
fn answers_over_a_file(rt: HostRuntime) -> Result<(), Fail> {
    let alloc = rt.alloc();
    let image = xn_rows::image(alloc, "short:0100_00000080_010060'a'01_00000083")?;
    fs::write(&rt, "one.img", &image)?;
    let mut machine = FileMachine::over(File::open(&rt, "one.img")?, Vec::new(alloc))?;
    let text = xn_rows::manifest(alloc, "block")?;
    let mut script = FileSource::over(std::io::empty());
    for (command, what) in [("list", "128"), ("resolve", "/a")] {
        let words = words_of(alloc, command, what)?;
        let mut manifest = FileSource::over(text.as_slice());
        let status = xfsns(alloc, &words, &mut machine, &mut manifest, &mut script);
        assert_eq!(rt; status, Status::Done);
    }
    assert_eq!(rt;
        machine.output().as_slice(),
        b"ok 1\n131 reg a\nok 131 reg\n".as_slice()
    );
    fs::remove_file(&rt, "one.img")?;
    Ok(())
}
