//! What comes of two files of the program, some of whose fields have other values.

use crate::split::images::{Twist, is_program, program};
use crate::split::joins::joined_images;
use elf_types::Octets;
use rebuild_join::joined::UnstripFault;
use test_kit_images::WIDE;
use test_kit_rows::{failed, failed_by, other, same, same_bytes};

/// What comes of two files.
#[derive(Clone, Copy)]
pub enum UnstripAnswer {
    /// The program, whose fields have no other values.
    Program,
    /// The debug half itself.
    Debug,
    /// Nothing, for that reason.
    Fault(UnstripFault),
}

/// Whether what was made is what is stated.
fn is_image(rt: &HostRuntime, made: &Octets, debug: &Octets, answer: UnstripAnswer) -> bool {
    match answer {
        UnstripAnswer::Program => is_program(rt, made),
        UnstripAnswer::Debug => same_bytes(rt, made.as_slice(), debug.as_slice()),
        UnstripAnswer::Fault(_) => other(rt, &"an image", "a fault"),
    }
}

/// Whether a fault is the stated one.
fn is_fault(rt: &HostRuntime, fault: UnstripFault, answer: UnstripAnswer) -> bool {
    match answer {
        UnstripAnswer::Fault(stated) => same(rt, &fault, &stated),
        _ => failed_by(rt, &fault),
    }
}

/// Whether this comes of two images, the first stripped.
pub fn comes_of(
    rt: &HostRuntime,
    stripped: &Octets,
    debug: &Octets,
    answer: UnstripAnswer,
) -> bool {
    match joined_images(rt.alloc(), stripped, debug, 0) {
        Ok(made) => is_image(rt, &made, debug, answer),
        Err(fault) => is_fault(rt, fault, answer),
    }
}

/// Whether this comes of the program as the stripped half and as the debug half, each with other
/// values of some fields.
pub fn comes_of_twists(
    rt: &HostRuntime,
    stripped: &[Twist],
    debug: &[Twist],
    answer: UnstripAnswer,
) -> bool {
    let one = match program(rt.alloc(), WIDE, stripped) {
        Ok(one) => one,
        Err(e) => return failed(rt, e),
    };
    match program(rt.alloc(), WIDE, debug) {
        Ok(two) => comes_of(rt, &one, &two, answer),
        Err(e) => failed(rt, e),
    }
}
