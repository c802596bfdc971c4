//! What nm says of an archive in which the header of a member is bad.

use crate::archives::{BACK, FRONT};
use crate::nm::SAME;
use test_kit_images::OBJECT;
use test_kit_runs::cases::{Case, Portion, Stored, are_so};
use test_kit_runs::{Ending, REFUSED};

/// A header of a member without its end, one whose size is no number, and one that names no long
/// name.
static BAD_MEMBERS: [Case; 3] = [
    Case {
        file: Stored::Portions(&[
            Portion::Bytes(FRONT),
            Portion::Image(OBJECT),
            Portion::Bytes(BACK),
            Portion::Byte(66, 0),
        ]),
        ending: Ending {
            err: b"nm: F: bad member at 8\n",
            ..REFUSED
        },
        ..SAME
    },
    Case {
        file: Stored::Portions(&[
            Portion::Bytes(FRONT),
            Portion::Image(OBJECT),
            Portion::Bytes(BACK),
            Portion::Byte(56, b'x'),
        ]),
        ending: Ending {
            err: b"nm: F: bad member at 8\n",
            ..REFUSED
        },
        ..SAME
    },
    Case {
        file: Stored::Portions(&[
            Portion::Bytes(FRONT),
            Portion::Byte(167, b'9'),
            Portion::Byte(168, b'9'),
            Portion::Image(OBJECT),
            Portion::Bytes(BACK),
        ]),
        ending: Ending {
            err: b"nm: F: bad member at 166\n",
            ..REFUSED
        },
        ..SAME
    },
];

#[test]
fn a_bad_header_of_a_member_has_a_message(rt: HostRuntime) {
    assert!(rt; are_so(&rt, &[], &BAD_MEMBERS));
}
