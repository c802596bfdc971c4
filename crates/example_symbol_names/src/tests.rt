//! The example on an image with two symbols, one of which has a name.

use crate::list_names;
use elf_outside::{MemSink, MemSource};
use elf_types::{Addrs, Class, ElfError, Octets, Order};
use std::alloc::Global;
use std::test::Fail;
use test_kit_images::symbol_object;

/// What is listed of an object.
fn listed(alloc: Global) -> Result<Octets, ElfError> {
    let image = symbol_object(alloc, Class::C64, Order::Least)?;
    let src = MemSource::new(image.bytes, Addrs::new(alloc));
    let mut out = MemSink::new(alloc, 16, Addrs::new(alloc))?;
    let (_source, listed) = list_names(alloc, src, &mut out);
    listed?;
    Ok(out.into_bytes())
}

#[test]
fn the_one_name_is_listed(rt: HostRuntime) -> Result<(), Fail> {
    let text = listed(rt.alloc())?;
    assert!(rt; text.as_slice() == b"a\n".as_slice());
    Ok(())
}
