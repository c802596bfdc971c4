use super::*;
use crate::laws::uses_have_places;
use std::test::*;

// Offsets and bytes as gABI chapter 4, "String Table", lays them out.
#[test]
fn names_stand_once_in_order_of_first_use(rt: HostRuntime) -> Result<(), Fail> {
    uses_have_places();
    let mut strings = Strings::new(rt.alloc());
    let uses: [(&[u8], u32); 4] = [(b"a", 1), (b"", 0), (b"bc", 3), (b"a", 1)];
    for (name, offset) in uses {
        assert_eq!(rt; strings.add(name), Ok(offset));
    }
    let table = strings.finish();
    assert!(rt; matches!(&table, Ok(bytes) if bytes.as_slice() == b"\0a\0bc\0".as_slice()));
    Ok(())
}

// The name table of an image with one section of data and the usual three tables.
#[test]
fn names_of_sections_have_their_offsets(rt: HostRuntime) -> Result<(), Fail> {
    let mut strings = Strings::new(rt.alloc());
    let uses: [(&[u8], u32); 4] = [
        (b".s1", 1),
        (b".symtab", 5),
        (b".strtab", 13),
        (b".shstrtab", 21),
    ];
    for (name, offset) in uses {
        assert_eq!(rt; strings.add(name), Ok(offset));
    }
    let table = strings.finish()?;
    assert!(rt; table.as_slice() == b"\0.s1\0.symtab\0.strtab\0.shstrtab\0".as_slice());
    Ok(())
}

#[test]
fn a_table_with_no_name_is_one_nul(rt: HostRuntime) -> Result<(), Fail> {
    let table = Strings::new(rt.alloc()).finish();
    assert!(rt; matches!(&table, Ok(bytes) if bytes.as_slice() == b"\0".as_slice()));
    Ok(())
}

// The hash multiplies by what the last eight bytes leave of its multiplier, which is nothing here.
#[test]
fn names_with_one_hash_stay_apart(rt: HostRuntime) -> Result<(), Fail> {
    let mut strings = Strings::new(rt.alloc());
    let uses: [(&[u8], u32); 5] = [
        (b"a\x15\x7c\x4a\x7f\xb9\x79\x37\x9e", 1),
        (b"b\x15\x7c\x4a\x7f\xb9\x79\x37\x9e", 11),
        (b"c\x15\x7c\x4a\x7f\xb9\x79\x37\x9e", 21),
        (b"a\x15\x7c\x4a\x7f\xb9\x79\x37\x9e", 1),
        (b"b\x15\x7c\x4a\x7f\xb9\x79\x37\x9e", 11),
    ];
    for (name, offset) in uses {
        assert_eq!(rt; hash_of(name), 0);
        assert_eq!(rt; strings.add(name), Ok(offset));
    }
    Ok(())
}
