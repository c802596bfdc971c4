//! The fields of a record, read and written by their places in the two classes.

ghost use Rattle.std.specs.Prelude.{ℕ, ◌≡◌, ◌≤◌, ◌+◌, ◌<◌, ◌^◌, IsTrue, length, if◌then◌else◌};
ghost use Rattle.elf_xlate.specs.Numbers.{octets, signed_of, unsigned_of};
ghost use Rattle.elf_xlate.specs.Fields.{field, class_of, number_in, written, written_in, fits, fits_signed};
ghost use Rattle.elf_xlate.specs.Items.{signed_width};

use crate::byte_order::Endian;

/// The byte that is at a place in class 32 and at another in class 64.
#[inline(always)]
#[tactic(auto, using(crate::proofs::Bytes::of_a_byte), unfolding(crate::specs::Fields::number_in))]
pub fn get_one<T: Endian, const WIDE: bool>(bytes: &[u8], narrow: usize, broad: usize) -> u8
    requires { (if WIDE then broad else narrow) + 1 ≤ length bytes.now }
    ensures { result ≡ number_in (class_of WIDE) T.order bytes.now (field (narrow, 1) (broad, 1)) }
{
    if WIDE { bytes[broad] } else { bytes[narrow] }
}

/// The two-byte number at a place of the class.
#[inline(always)]
#[tactic(auto, unfolding(crate::specs::Fields::number_in, crate::specs::Numbers::number_at))]
pub fn get_two<T: Endian, const WIDE: bool>(bytes: &[u8], narrow: usize, broad: usize) -> u16
    requires { (if WIDE then broad else narrow) + 2 ≤ length bytes.now }
    ensures { result ≡ number_in (class_of WIDE) T.order bytes.now (field (narrow, 2) (broad, 2)) }
{
    if WIDE {
        T::read_u16(&bytes[broad..])
    } else {
        T::read_u16(&bytes[narrow..])
    }
}

/// The four-byte number at a place of the class.
#[inline(always)]
#[tactic(auto, unfolding(crate::specs::Fields::number_in, crate::specs::Numbers::number_at))]
pub fn get_four<T: Endian, const WIDE: bool>(bytes: &[u8], narrow: usize, broad: usize) -> u32
    requires { (if WIDE then broad else narrow) + 4 ≤ length bytes.now }
    ensures { result ≡ number_in (class_of WIDE) T.order bytes.now (field (narrow, 4) (broad, 4)) }
{
    if WIDE {
        T::read_u32(&bytes[broad..])
    } else {
        T::read_u32(&bytes[narrow..])
    }
}

/// The number at a place of the class: of four bytes in class 32, of eight in class 64.
#[inline(always)]
#[tactic(auto, unfolding(crate::specs::Fields::number_in, crate::specs::Numbers::number_at))]
pub fn get_native<T: Endian, const WIDE: bool>(bytes: &[u8], narrow: usize, broad: usize) -> u64
    requires { (if WIDE then broad + 8 else narrow + 4) ≤ length bytes.now }
    ensures fits { IsTrue (fits (class_of WIDE) result) }
    ensures value { result ≡ number_in (class_of WIDE) T.order bytes.now
        (field (narrow, 4) (broad, 8)) }
{
    if WIDE {
        T::read_u64(&bytes[broad..])
    } else {
        u64::from(T::read_u32(&bytes[narrow..]))
    }
}

/// The signed number at a place of the class: of four bytes in class 32, of eight in class 64.
#[inline(always)]
pub fn get_signed<T: Endian, const WIDE: bool>(bytes: &[u8], narrow: usize, broad: usize) -> i64
    requires { (if WIDE then broad + 8 else narrow + 4) ≤ length bytes.now }
    ensures fits { IsTrue (fits_signed (class_of WIDE) result) }
    ensures value { result ≡ signed_of (signed_width (class_of WIDE))
        (number_in (class_of WIDE) T.order bytes.now (field (narrow, 4) (broad, 8))) }
{
    signed::<WIDE>(get_native::<T, WIDE>(bytes, narrow, broad))
}

/// The signed number for which a number of the class is: one of four bytes in class 32, of eight in
/// class 64.
#[inline(always)]
fn signed<const WIDE: bool>(n: u64) -> i64
    requires { IsTrue (fits (class_of WIDE) n) }
    ensures fits { IsTrue (fits_signed (class_of WIDE) result) }
    ensures value { result ≡ signed_of (signed_width (class_of WIDE)) n }
{
    if WIDE {
        n.cast_signed()
    } else {
        let narrow = (n as u32).cast_signed();
        i64::from(narrow)
    }
}

/// Writes a two-byte number at a place.
#[inline(always)]
fn write_two<T: Endian>(out: &mut [u8], place: usize, n: u16)
    requires { place + 2 ≤ length out.old }
    ensures { out.new ≡ written place (octets T.order 2 n) out.old }
{
    T::write_u16(&mut out[place..], n);
}

/// Writes a four-byte number at a place.
#[inline(always)]
fn write_four<T: Endian>(out: &mut [u8], place: usize, n: u32)
    requires { place + 4 ≤ length out.old }
    ensures { out.new ≡ written place (octets T.order 4 n) out.old }
{
    T::write_u32(&mut out[place..], n);
}

/// Writes an eight-byte number at a place.
#[inline(always)]
fn write_eight<T: Endian>(out: &mut [u8], place: usize, n: u64)
    requires { place + 8 ≤ length out.old }
    ensures { out.new ≡ written place (octets T.order 8 n) out.old }
{
    T::write_u64(&mut out[place..], n);
}

/// Writes a byte at a place of the class.
#[inline(always)]
#[tactic(auto, using(crate::proofs::Written::one_set), unfolding(crate::specs::Fields::written_in))]
pub fn put_one<T: Endian, const WIDE: bool>(out: &mut [u8], narrow: usize, broad: usize, n: u8)
    requires { (if WIDE then broad else narrow) + 1 ≤ length out.old }
    ensures { out.new ≡ written_in (class_of WIDE) T.order (field (narrow, 1) (broad, 1)) n
        out.old }
{
    if WIDE {
        out[broad] = n;
    } else {
        out[narrow] = n;
    }
}

/// Writes a two-byte number at a place of the class.
#[inline(always)]
#[tactic(auto, unfolding(crate::specs::Fields::written_in))]
pub fn put_two<T: Endian, const WIDE: bool>(out: &mut [u8], narrow: usize, broad: usize, n: u16)
    requires { (if WIDE then broad else narrow) + 2 ≤ length out.old }
    ensures { out.new ≡ written_in (class_of WIDE) T.order (field (narrow, 2) (broad, 2)) n
        out.old }
{
    if WIDE {
        write_two::<T>(out, broad, n);
    } else {
        write_two::<T>(out, narrow, n);
    }
}

/// Writes a four-byte number at a place of the class.
#[inline(always)]
#[tactic(auto, unfolding(crate::specs::Fields::written_in))]
pub fn put_four<T: Endian, const WIDE: bool>(out: &mut [u8], narrow: usize, broad: usize, n: u32)
    requires { (if WIDE then broad else narrow) + 4 ≤ length out.old }
    ensures { out.new ≡ written_in (class_of WIDE) T.order (field (narrow, 4) (broad, 4)) n
        out.old }
{
    if WIDE {
        write_four::<T>(out, broad, n);
    } else {
        write_four::<T>(out, narrow, n);
    }
}

/// Writes a number at a place of the class: in four bytes in class 32, in eight in class 64.
#[inline(always)]
#[tactic(auto, unfolding(crate::specs::Fields::written_in))]
pub fn put_native<T: Endian, const WIDE: bool>(out: &mut [u8], narrow: usize, broad: usize, n: u64)
    requires room { (if WIDE then broad + 8 else narrow + 4) ≤ length out.old }
    requires fits { IsTrue (fits (class_of WIDE) n) }
    ensures { out.new ≡ written_in (class_of WIDE) T.order (field (narrow, 4) (broad, 8)) n
        out.old }
{
    if WIDE {
        write_eight::<T>(out, broad, n);
    } else {
        write_four::<T>(out, narrow, n as u32);
    }
}

/// Writes a signed number at a place of the class: in four bytes in class 32, in eight in class 64.
#[inline(always)]
#[tactic(auto, unfolding(crate::specs::Fields::written_in, crate::specs::Numbers::unsigned_of))]
pub fn put_signed<T: Endian, const WIDE: bool>(out: &mut [u8], narrow: usize, broad: usize, n: i64)
    requires room { (if WIDE then broad + 8 else narrow + 4) ≤ length out.old }
    requires fits { IsTrue (fits_signed (class_of WIDE) n) }
    ensures { out.new ≡ written_in (class_of WIDE) T.order (field (narrow, 4) (broad, 8))
        (unsigned_of (signed_width (class_of WIDE)) n) out.old }
{
    if WIDE {
        write_eight::<T>(out, broad, n.cast_unsigned());
    } else {
        write_four::<T>(out, narrow, (n as i32).cast_unsigned());
    }
}

/// The number in the field at these places and widths, in class 32 and then in class 64; `s` marks
/// a signed one.
macro_rules! get_field {
    ($order:ident, $wide:ident, $bytes:ident, $narrow:tt : 1, $broad:tt : 1) => {
        get_one::<$order, $wide>($bytes, $narrow, $broad)
    };
    ($order:ident, $wide:ident, $bytes:ident, $narrow:tt : 2, $broad:tt : 2) => {
        get_two::<$order, $wide>($bytes, $narrow, $broad)
    };
    ($order:ident, $wide:ident, $bytes:ident, $narrow:tt : 4, $broad:tt : 4) => {
        get_four::<$order, $wide>($bytes, $narrow, $broad)
    };
    ($order:ident, $wide:ident, $bytes:ident, $narrow:tt : 4, $broad:tt : 8) => {
        get_native::<$order, $wide>($bytes, $narrow, $broad)
    };
    ($order:ident, $wide:ident, $bytes:ident, $narrow:tt : 4 s, $broad:tt : 8 s) => {
        get_signed::<$order, $wide>($bytes, $narrow, $broad)
    };
}

pub(crate) use get_field;

/// Writes a number into the field at these places and widths, in class 32 and then in class 64; `s`
/// marks a signed one.
macro_rules! put_field {
    ($order:ident, $wide:ident, $out:ident, $narrow:tt : 1, $broad:tt : 1, $n:expr) => {
        put_one::<$order, $wide>($out, $narrow, $broad, $n)
    };
    ($order:ident, $wide:ident, $out:ident, $narrow:tt : 2, $broad:tt : 2, $n:expr) => {
        put_two::<$order, $wide>($out, $narrow, $broad, $n)
    };
    ($order:ident, $wide:ident, $out:ident, $narrow:tt : 4, $broad:tt : 4, $n:expr) => {
        put_four::<$order, $wide>($out, $narrow, $broad, $n)
    };
    ($order:ident, $wide:ident, $out:ident, $narrow:tt : 4, $broad:tt : 8, $n:expr) => {
        put_native::<$order, $wide>($out, $narrow, $broad, $n)
    };
    ($order:ident, $wide:ident, $out:ident, $narrow:tt : 4 s, $broad:tt : 8 s, $n:expr) => {
        put_signed::<$order, $wide>($out, $narrow, $broad, $n)
    };
}

pub(crate) use put_field;
