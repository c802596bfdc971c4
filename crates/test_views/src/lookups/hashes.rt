//! Known hashes of names.

use symbol_hashes::{elf_hash, gnu_hash};
use test_kit_rows::{in_row, same};

/// A name with its two hashes.
struct Hashed {
    name: &'static [u8],
    elf: u32,
    gnu: u32,
}

/// Names of the C library, whose hashes are in its images; and long ones with bytes above 127. The
/// long ones were worked out by the formulas of the gABI and of GNU's hash section.
static HASHED: [Hashed; 7] = [
    Hashed {
        name: b"",
        elf: 0,
        gnu: 0x1505,
    },
    Hashed {
        name: b"printf",
        elf: 0x0779_05a6,
        gnu: 0x156b_2bb8,
    },
    Hashed {
        name: b"exit",
        elf: 0x0006_cf04,
        gnu: 0x7c96_7e3f,
    },
    Hashed {
        name: &[0xff; 8],
        elf: 0x0000_10ef,
        gnu: 0xe3f2_ee7d,
    },
    Hashed {
        name: &[0xff; 200],
        elf: 0x0000_10ef,
        gnu: 0xc3f5_f1bd,
    },
    Hashed {
        name: &[0x80; 128],
        elf: 0x0888_8000,
        gnu: 0x0f87_a505,
    },
    Hashed {
        name: &[0xa9; 140],
        elf: 0x0247_ca09,
        gnu: 0xda9f_cb31,
    },
];

/// Whether a name has these hashes.
fn is_hashed(rt: &HostRuntime, h: &Hashed) -> bool {
    same(rt, &elf_hash(h.name), &h.elf) && same(rt, &gnu_hash(h.name), &h.gnu)
}

/// Whether each name has its hashes.
fn are_hashed(rt: &HostRuntime, names: &[Hashed]) -> bool {
    for (n, h) in names.iter().enumerate() {
        if !in_row(rt, n, is_hashed(rt, h)) {
            return false;
        }
    }
    true
}

#[test]
fn names_have_known_hashes(rt: HostRuntime) {
    assert!(rt; are_hashed(&rt, &HASHED));
}
