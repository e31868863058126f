// What stands for an entry of a list in a record.
ghost use Rattle.std.specs.Prelude.{◌≡◌, ℕ, ◌%◌};
ghost use Rattle.std.specs.Float.Ieee.{of_bits, to_bits};
ghost use Rattle.std.specs.Float.{binary64};
ghost use Rattle.formats.specs.Bytes.{field};
ghost use Rattle.call_records.specs.Reads.{Reads};

use crate::fields::Fields;

// An entry of a list: a number, a float or a byte. It is no `Field` of bytes_in: a number has eight bytes here, and a byte is an entry too.
pub trait Entry: Copy {
    // The bytes of an entry.
    ghost SIZE: { ℕ };

    // The entry with these bits, and the bits of an entry.
    ghost value_of: { ℕ → Self };

    ghost bits_of: { Self → ℕ };

    // The bits of 9, which a list holds past its front.
    ghost NINE: { ℕ };

    const NINE: u64;

    // The bits of the entry that stands next.
    fn next_bits(fields: &mut Fields<'_>) -> Option<u64>
        ensures { Reads SIZE (field SIZE 0) fields.old.rest.now fields.new.rest.now result };

    fn from_bits(bits: u64) -> Self
        ensures { result ≡ value_of bits };

    fn to_bits(self) -> u64
        ensures { result ≡ bits_of self };
}

impl Entry for usize {
    ghost SIZE = { 8 };

    ghost value_of = { λ n. n };

    ghost bits_of = { λ n. n };

    ghost NINE = { 9 };

    const NINE: u64 = 9;

    fn next_bits(fields: &mut Fields<'_>) -> Option<u64> {
        fields.bits()
    }

    fn from_bits(bits: u64) -> usize {
        bits as usize
    }

    fn to_bits(self) -> u64 {
        self as u64
    }
}

impl Entry for f64 {
    ghost SIZE = { 8 };

    ghost value_of = { of_bits binary64 };

    ghost bits_of = { to_bits binary64 };

    ghost NINE = { 0x4022000000000000 };

    const NINE: u64 = 0x4022_0000_0000_0000;

    fn next_bits(fields: &mut Fields<'_>) -> Option<u64> {
        fields.bits()
    }

    fn from_bits(bits: u64) -> f64 {
        bytes_in::float_of(bits)
    }

    fn to_bits(self) -> u64 {
        bytes_out::bits_of(self)
    }
}

impl Entry for u8 {
    ghost SIZE = { 1 };

    ghost value_of = { λ n. n % 256 };

    ghost bits_of = { λ n. n };

    ghost NINE = { 9 };

    const NINE: u64 = 9;

    fn next_bits(fields: &mut Fields<'_>) -> Option<u64> {
        Some(fields.byte()? as u64)
    }

    fn from_bits(bits: u64) -> u8 {
        (bits % 256) as u8
    }

    fn to_bits(self) -> u64 {
        self as u64
    }
}
