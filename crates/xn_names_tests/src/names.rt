use crate::lists::{links_are_right, listed, placed_under_root, told};
use std::test::*;
use xn_bytes::{Kind, Name};
use xn_inode::Super;
use xn_items::ParentRec;
use xn_make::superblock;
use xn_names::{Naming, has_dotdot, has_links, is_unnamed, naming, naming_near};

/// The root, 128, has the directory 131 and the file 133; 131 has the directory 132, and 133 once more, before and behind `a`.
/// The directory 140 is named by none, and has the file 141.
const TREE: [(u64, u64, Kind, &str); 7] = [
    (131, 133, Kind::Reg, "b"),
    (140, 141, Kind::Fifo, "lost"),
    (131, 132, Kind::Dir, "d"),
    (128, 133, Kind::Reg, "z"),
    (128, 131, Kind::Dir, "a"),
    (131, 133, Kind::Reg, "a"),
    (131, 133, Kind::Reg, "ab"),
];

fn geometry() -> Result<Super, Fail> {
    Ok(Super::read(&superblock(64), 4608).ok().ok_or("accepted")?)
}

/// The directories and names of entries, a word each.
fn spelled(rt: HostRuntime, namings: &[Naming]) -> Result<String, Fail> {
    let mut text = String::new(rt.alloc());
    for naming in namings {
        write!(
            text,
            "{}:{} ",
            naming.dir,
            std::str::from_utf8(naming.name.bytes()).ok().ok_or("text")?
        )?;
    }
    Ok(text)
}

#[test]
fn entries_of_an_inode(rt: HostRuntime) -> Result<(), Fail> {
    let namings = listed(rt.alloc(), &TREE).ok().ok_or("listed")?;
    for (ino, want) in [
        (128, ""),
        (131, "128:a "),
        (132, "131:d "),
        (133, "128:z 131:a 131:ab 131:b "),
        (134, ""),
        (141, "140:lost "),
        (u64::MAX, ""),
    ] {
        let told = spelled(rt, naming(&namings, ino))?;
        assert_eq!(rt; told.as_str(), want, "of {ino}");
        for start in 0..9 {
            let mut near = start;
            let told = spelled(rt, naming_near(&namings, ino, &mut near))?;
            assert_eq!(rt; told.as_str(), want, "of {ino} near {start}");
        }
    }
    let told = spelled(rt, &namings)?;
    assert_eq!(rt;
        told.as_str(),
        "128:a 131:d 128:z 131:a 131:ab 131:b 140:lost "
    );
    Ok(())
}

#[test]
fn links(rt: HostRuntime) -> Result<(), Fail> {
    let namings = listed(rt.alloc(), &TREE).ok().ok_or("listed")?;
    for (ino, nlink, want) in [
        (133, 4, true),
        (133, 3, false),
        (133, 5, false),
        (134, 0, true),
        (134, 1, false),
    ] {
        assert_eq!(rt; has_links(naming(&namings, ino), nlink), want, "of {ino}");
    }
    let geometry = geometry()?;
    // one directory in the root, and one in 131; none in 132; 140 is detached
    for (dir, nlink) in [(128, 3), (131, 3), (132, 2), (140, 0)] {
        for links in 0..6 {
            assert_eq!(rt;
                links_are_right(&geometry, &namings, dir, links),
                links == nlink,
                "of {dir}: {links}"
            );
        }
    }
    Ok(())
}

#[test]
fn dotdots(rt: HostRuntime) -> Result<(), Fail> {
    let namings = listed(rt.alloc(), &TREE).ok().ok_or("listed")?;
    let geometry = geometry()?;
    for (dir, dotdot, want) in [
        (128, 128, true),
        (128, 131, false),
        (131, 128, true),
        (131, 131, false),
        (132, 131, true),
        (132, 128, false),
        // two directories name it
        (133, 128, true),
        (133, 131, true),
        (133, 132, false),
        // it is detached
        (140, 128, true),
        (140, 999, true),
    ] {
        assert_eq!(rt;
            has_dotdot(&geometry, &namings, dir, dotdot),
            want,
            "of {dir}: {dotdot}"
        );
    }
    for (dir, want) in [(128, false), (131, false), (140, true)] {
        assert_eq!(rt; is_unnamed(&geometry, &namings, dir), want, "of {dir}");
    }
    Ok(())
}

#[test]
fn places(rt: HostRuntime) -> Result<(), Fail> {
    let geometry = geometry()?;
    let rows = [
        (128, 131, Kind::Dir, "a"),
        (128, 132, Kind::Dir, "b"),
        (128, 132, Kind::Dir, "c"),
    ];
    let namings = listed(rt.alloc(), &rows).ok().ok_or("listed")?;
    for (dir, want) in [(128, true), (131, true), (132, false), (140, true)] {
        assert_eq!(rt;
            placed_under_root(&geometry, &namings, dir),
            Some(want),
            "of {dir}"
        );
    }
    // an entry names the root
    let namings = listed(rt.alloc(), &[(128, 128, Kind::Dir, "a")])
        .ok()
        .ok_or("listed")?;
    assert_eq!(rt; placed_under_root(&geometry, &namings, 128), Some(false));
    Ok(())
}

#[test]
fn records(rt: HostRuntime) -> Result<(), Fail> {
    let rows = [
        (1131, 133, Kind::Reg, "b"),
        (128, 133, Kind::Reg, "a"),
        (128, 134, Kind::Reg, "c"),
    ];
    let namings = listed(rt.alloc(), &rows).ok().ok_or("listed")?;
    // the directory and generation of the second, its name, and whether both are told
    for (dir, generation, name, want) in [
        (1131, 131, "b", true),
        (1131, 132, "b", false),
        (1132, 131, "b", false),
        (1131, 131, "c", false),
        (1131, 131, "bb", false),
    ] {
        let parents = [
            parent(rt, 128, 128, "a")?,
            parent(rt, dir, generation, name)?,
        ];
        assert_eq!(rt;
            told(&namings, 133, &parents),
            Some(want),
            "{dir} {generation} {name}"
        );
    }
    // too few, too many, and none
    assert_eq!(rt;
        told(&namings, 133, &[parent(rt, 128, 128, "a")?]),
        Some(false)
    );
    assert_eq!(rt;
        told(&namings, 134, &[parent(rt, 128, 128, "c")?]),
        Some(true)
    );
    assert_eq!(rt; told(&namings, 134, &[]), Some(false));
    assert_eq!(rt; told(&namings, 135, &[]), Some(true));
    Ok(())
}

fn parent(rt: HostRuntime, dir: u64, generation: u32, name: &str) -> Result<ParentRec, Fail> {
    let name = Name::read(rt.alloc(), name.as_bytes())
        .ok()
        .ok_or("a name")?;
    Ok(ParentRec {
        dir,
        generation,
        name,
    })
}
