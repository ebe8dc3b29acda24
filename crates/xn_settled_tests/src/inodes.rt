//! An inode after an item. The logged core has at each place that place's number, but for the fork offset and the lowest flags.

ghost use Rattle.std.specs.Prelude.{◌≡◌, ◌∷◌, [], IfOk, Some};
ghost use Rattle.xn_bytes.specs.Numbers.{number_at};

use std::alloc::{AllocError, Global};
use std::test::Fail;
use xn_bytes::{Bytes, has_checksum};
use xn_changes::InodeItem;
use xn_settled::lay_inode;

const LSN: u64 = 0x0000_0001_0000_0002;

/// With time stamps that are one number.
const WIDE: [u8; 176] = [
    0, 1, 2, 3, 4, 5, 6, 7, 8, 9, 10, 11, 12, 13, 14, 15, 16, 17, 18, 19, 20, 21, 22, 23, 24, 25,
    26, 27, 28, 29, 30, 31, 32, 33, 34, 35, 36, 37, 38, 39, 40, 41, 42, 43, 44, 45, 46, 47, 48, 49,
    50, 51, 52, 53, 54, 55, 56, 57, 58, 59, 60, 61, 62, 63, 64, 65, 66, 67, 68, 69, 70, 71, 72, 73,
    74, 75, 76, 77, 78, 79, 80, 81, 20, 83, 84, 85, 86, 87, 88, 89, 90, 91, 92, 93, 94, 95, 96, 97,
    98, 99, 100, 101, 102, 103, 104, 105, 106, 107, 108, 109, 110, 111, 112, 113, 114, 115, 116,
    117, 118, 119, 8, 121, 122, 123, 124, 125, 126, 127, 128, 129, 130, 131, 132, 133, 134, 135,
    136, 137, 138, 139, 140, 141, 142, 143, 144, 145, 146, 147, 148, 149, 150, 151, 152, 153, 154,
    155, 156, 157, 158, 159, 160, 161, 162, 163, 164, 165, 166, 167, 168, 169, 170, 171, 172, 173,
    174, 175,
];

/// With time stamps that are two.
const NARROW: [u8; 176] = [
    0, 1, 2, 3, 4, 5, 6, 7, 8, 9, 10, 11, 12, 13, 14, 15, 16, 17, 18, 19, 20, 21, 22, 23, 24, 25,
    26, 27, 28, 29, 30, 31, 32, 33, 34, 35, 36, 37, 38, 39, 40, 41, 42, 43, 44, 45, 46, 47, 48, 49,
    50, 51, 52, 53, 54, 55, 56, 57, 58, 59, 60, 61, 62, 63, 64, 65, 66, 67, 68, 69, 70, 71, 72, 73,
    74, 75, 76, 77, 78, 79, 80, 81, 20, 83, 84, 85, 86, 87, 88, 89, 90, 91, 92, 93, 94, 95, 96, 97,
    98, 99, 100, 101, 102, 103, 104, 105, 106, 107, 108, 109, 110, 111, 112, 113, 114, 115, 116,
    117, 118, 119, 0, 121, 122, 123, 124, 125, 126, 127, 128, 129, 130, 131, 132, 133, 134, 135,
    136, 137, 138, 139, 140, 141, 142, 143, 144, 145, 146, 147, 148, 149, 150, 151, 152, 153, 154,
    155, 156, 157, 158, 159, 160, 161, 162, 163, 164, 165, 166, 167, 168, 169, 170, 171, 172, 173,
    174, 175,
];

fn item(alloc: Global, core: &[u8; 176]) -> Result<InodeItem, AllocError>
    ensures { IfOk result (λ item. (item.core ≡ core.now) × (item.data_fork ≡ Some (71 ∷ 72 ∷ 73 ∷ [])) × (item.attr_fork ≡ Some (81 ∷ 82 ∷ []))) }
{
    let mut bytes = Vec::new(alloc);
    bytes.extend_from_slice(core)?;
    let data_fork = vec![in alloc; 71, 72, 73]?;
    let attr_fork = vec![in alloc; 81, 82]?;
    Ok(InodeItem {
        fields: 0x47,
        number: 144,
        sector: 144,
        length: 8,
        offset: 0,
        core: Bytes::new(bytes),
        data_fork: Some(Bytes::new(data_fork)),
        attr_fork: Some(Bytes::new(attr_fork)),
    })
}

fn home(core: &[u8; 176], rt: &HostRuntime) -> Result<[u8; 512], Fail>
    requires { number_at 1 82 core.now ≡ 20 }
{
    let item = item(rt.alloc(), core)?;
    let mut inode = [0xee; 512];
    lay_inode(&item, LSN, &mut inode);
    Ok(inode)
}

#[test]
fn numbers_are_turned_round(rt: HostRuntime) -> Result<(), Fail> {
    let inode = home(&WIDE, &rt)?;
    for (from, wanted) in [
        (0_u16, [1, 0, 3, 2, 4, 5, 0, 0]),
        (8, [11, 10, 9, 8, 15, 14, 13, 12]),
        (16, [19, 18, 17, 16, 21, 20, 23, 22]),
        (24, [31, 30, 29, 28, 27, 26, 25, 24]),
        (32, [39, 38, 37, 36, 35, 34, 33, 32]),
        (56, [63, 62, 61, 60, 59, 58, 57, 56]),
        (72, [75, 74, 73, 72, 79, 78, 77, 76]),
        (80, [81, 80, 20, 83, 87, 86, 85, 84]),
        (88, [89, 88, 91, 90, 95, 94, 93, 92]),
        (104, [111, 110, 109, 108, 107, 106, 105, 104]),
        (112, [0, 0, 0, 1, 0, 0, 0, 2]),
        (120, [127, 126, 125, 124, 123, 122, 121, 8]),
        (128, [131, 130, 129, 128, 0, 0, 0, 0]),
        (136, [0, 0, 0, 0, 0, 0, 0, 0]),
        (144, [151, 150, 149, 148, 147, 146, 145, 144]),
        (152, [159, 158, 157, 156, 155, 154, 153, 152]),
        (160, [160, 161, 162, 163, 164, 165, 166, 167]),
        (168, [168, 169, 170, 171, 172, 173, 174, 175]),
        (176, [71, 72, 73, 0xee, 0xee, 0xee, 0xee, 0xee]),
        (336, [81, 82, 0xee, 0xee, 0xee, 0xee, 0xee, 0xee]),
    ] {
        let from = usize::from(from);
        assert_eq!(rt; inode.get(from..from + 8), Some(wanted.as_slice()));
    }
    assert_eq!(rt; &inode[96..100], [0xee; 4].as_slice());
    assert!(rt; has_checksum(&inode, 100));
    Ok(())
}

#[test]
fn narrow_times_are_two_numbers(rt: HostRuntime) -> Result<(), Fail> {
    let inode = home(&NARROW, &rt)?;
    assert_eq!(rt; &inode[48..56], [51, 50, 49, 48, 55, 54, 53, 52].as_slice());
    assert_eq!(rt;
        &inode[144..152],
        [147, 146, 145, 144, 151, 150, 149, 148].as_slice()
    );
    Ok(())
}
