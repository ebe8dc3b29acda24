//! Lines of words that are none of the forms.

use super::{Asked, check_rows};

/// Without a sector the image breaks rule 1, which comes behind the words.
const ROWS: &str = r"
| none | 1 usage
list | none | 1 usage
apply IMAGE | none | 1 usage
--help | none | 1 usage
--version | none | 1 usage
list IMAGE MANIFEST | none | 1 usage
list IMAGE MANIFEST 128 128 | none | 1 usage
lists IMAGE MANIFEST 128 | none | 1 usage
list {} MANIFEST 128 | none | 1 usage
list - MANIFEST 128 | none | 1 usage
list -- MANIFEST 128 | none | 1 usage
list -- IMAGE MANIFEST 128 | none | 1 usage
list IMAGE -MANIFEST 128 | none | 1 usage
list -IMAGE MANIFEST 128 | none | 1 usage

list IMAGE MANIFEST {} | none | 1 usage
list IMAGE MANIFEST -1 | none | 1 usage
list IMAGE MANIFEST 0128 | none | 1 usage
list IMAGE MANIFEST 00 | none | 1 usage
list IMAGE MANIFEST +128 | none | 1 usage
list IMAGE MANIFEST 12x | none | 1 usage
list IMAGE MANIFEST 18446744073709551616 | none | 1 usage

resolve IMAGE MANIFEST | none | 1 usage
resolve IMAGE MANIFEST / / | none | 1 usage
resolve IMAGE MANIFEST {} | none | 1 usage
resolve IMAGE MANIFEST -x | none | 1 usage
resolve IMAGE MANIFEST a\zz | none | 1 usage
resolve IMAGE MANIFEST a\5C | none | 1 usage
resolve IMAGE MANIFEST a\ | none | 1 usage
resolve IMAGE MANIFEST a{_}b | none | 1 usage

check | none | 1 usage
check IMAGE | none | 1 usage
check IMAGE -MANIFEST | none | 1 usage
check IMAGE MANIFEST 128 | none | 1 usage

# the same where there is a device that can be read
apply IMAGE | block | 1 usage
list IMAGE MANIFEST 0128 | block | 1 usage
resolve IMAGE MANIFEST a\zz | block | 1 usage
check IMAGE MANIFEST 128 | block | 1 usage
";

#[test]
fn are_refused_before_anything_is_read(rt: HostRuntime) {
    check_rows(&rt, Asked::Program, "words", ROWS);
}
