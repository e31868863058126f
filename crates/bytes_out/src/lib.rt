// A writer of bytes: marks, whole numbers and floats, the lowest byte first, one behind the other. What bytes_in reads there again is what
// was written (`number-back` and `float_back`).
#![tactic(auto)]

ghost use Rattle.std.specs.Prelude.{◌≡◌, ℕ, List};
ghost use Rattle.std.specs.Float.Ieee.{to_bits};
ghost use Rattle.std.specs.Float.{binary64};
ghost use Rattle.formats.specs.Bytes.{number_bytes, float_bytes};
ghost use Rattle.bytes_out.specs.Writing.{Takes, Appends};

use bytes_in::NUMBER;

mod writer;

pub use writer::Writer;

// The bits of a float. Not-a-number has one pattern here, since `to_bits` takes none.
pub fn bits_of(x: f64) -> u64
    ensures { result ≡ to_bits binary64 x }
{
    if x.is_nan() {
        0x7ff8_0000_0000_0000
    } else {
        x.to_bits()
    }
}

// What stands in records with a fixed number of bytes: numbers, and floats. A trait apart from that of bytes_in: each has laws of its own, and
// bytes_in stands below this crate, so that one trait of both would ask it for the writer.
pub trait Field: Copy {
    ghost bytes: { Self → List ℕ };

    // Appends the value.
    fn append(self, out: &mut Writer<'_>)
        requires { Takes out.old (bytes self) }
        ensures { Appends out.old out.new (bytes self) };
}

// A number by its four lowest bytes.
impl Field for usize {
    ghost bytes = { number_bytes };

    fn append(self, out: &mut Writer<'_>) {
        out.text(&self.to_le_bytes()[..NUMBER]);
    }
}

// A float by its bits.
impl Field for f64 {
    ghost bytes = { float_bytes };

    fn append(self, out: &mut Writer<'_>) {
        out.text(&bits_of(self).to_le_bytes());
    }
}
