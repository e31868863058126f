// The printout's texts, each appended to what a writer has written.
#![tactic(auto)]

ghost use Rattle.std.specs.Prelude.{◌≡◌, ℕ, List, [], ◌∷◌, ◌++◌, ◌<◌, map};
ghost use Rattle.lists.specs.Lists.{joined};
ghost use Rattle.formats.specs.Printout.{digit_of_lem, decimal, hex_onto, rows_text, floats_text, refusal_text};
ghost use Rattle.bytes_out.specs.Writing.{Takes, Appends};
ghost use Rattle.refusal.specs.Refusals.{as_refusal};
ghost use Rattle.print_texts.specs.Refusals.{refusal_of};
ghost use Rattle.print_texts.specs.Texts.{row_text, float_text};

use bytes_out::Writer;
use refusal::Refusal;

// The digit of a number below 16. Digits are put by hand, here and below: `write!` answers a result that each caller would take apart, though
// the room is promised.
fn digit_of(n: u8) -> u8
    requires { n < 16 }
    ensures { result ≡ digit_of_lem n }
{
    if n < 10 { b'0' + n } else { b'a' - 10 + n }
}

// A number in decimal.
fn write_decimal(n: usize, out: &mut Writer<'_>)
    requires { Takes out.old (decimal n) }
    ensures { Appends out.old out.new (decimal n) }
{
    let low = digit_of((n % 10) as u8);
    if n < 10 {
        out.byte(low);
        return;
    }
    write_decimal(n / 10, out);
    out.byte(low);
}

// The k lowest hexadecimal digits of a number.
fn write_hex(k: usize, n: u64, out: &mut Writer<'_>)
    requires { Takes out.old (hex_onto k n []) }
    ensures { Appends out.old out.new (hex_onto k n []) }
{
    if k == 0 {
        return;
    }
    let low = digit_of((n % 16) as u8);
    write_hex(k - 1, n / 16, out);
    out.byte(low);
}

// What is printed in lists: the rows, and the floats. It is no `Field` of bytes_out: the same types are written otherwise in print.
trait Printed: Copy {
    ghost text: { Self → List ℕ };

    // A space and the value.
    fn write(self, out: &mut Writer<'_>)
        requires { Takes out.old (text self) }
        ensures { Appends out.old out.new (text self) };
}

impl Printed for usize {
    ghost text = { row_text };

    fn write(self, out: &mut Writer<'_>) {
        out.byte(b' ');
        write_decimal(self, out);
    }
}

// A float by the 16 hexadecimal digits of its bits.
impl Printed for f64 {
    ghost text = { float_text };

    fn write(self, out: &mut Writer<'_>) {
        out.byte(b' ');
        write_hex(16, bytes_out::bits_of(self), out);
    }
}

// The texts of a list's values, one after the other.
fn write_each<T: Printed>(xs: &[T], out: &mut Writer<'_>)
    requires { Takes out.old (joined (map T.text xs.now)) }
    ensures { Appends out.old out.new (joined (map T.text xs.now)) }
{
    for &x in xs {
        x.write(out);
    }
}

// The rows; a dash where there is none.
fn write_rows(rows: &[usize], out: &mut Writer<'_>)
    requires { Takes out.old (rows_text rows.now) }
    ensures { Appends out.old out.new (rows_text rows.now) }
{
    if rows.is_empty() {
        out.text(b" -");
        return;
    }
    write_each(rows, out);
}

// The floats.
pub fn write_floats(floats: &[f64], out: &mut Writer<'_>)
    requires { Takes out.old (floats_text floats.now) }
    ensures { Appends out.old out.new (floats_text floats.now) }
{
    write_each(floats, out);
}

// A text and a number. Three functions, and not one over `Printed`: a number follows its text without a space, and rows may be none.
pub fn write_numbered(label: &[u8], n: usize, out: &mut Writer<'_>)
    requires { Takes out.old (label.now ++ decimal n) }
    ensures { Appends out.old out.new (label.now ++ decimal n) }
{
    out.text(label);
    write_decimal(n, out);
}

// A text and rows.
pub fn write_listed(label: &[u8], rows: &[usize], out: &mut Writer<'_>)
    requires { Takes out.old (label.now ++ rows_text rows.now) }
    ensures { Appends out.old out.new (label.now ++ rows_text rows.now) }
{
    out.text(label);
    write_rows(rows, out);
}

// A text and a float.
pub fn write_valued(label: &[u8], x: f64, out: &mut Writer<'_>)
    requires { Takes out.old (label.now ++ floats_text (x ∷ [])) }
    ensures { Appends out.old out.new (label.now ++ floats_text (x ∷ [])) }
{
    out.text(label);
    x.write(out);
}

// The line of a refusal with this number and this place. Numbers, and no `Refusal`: that type has places for some refusals only, and asks more.
pub fn write_refused(number: usize, place: usize, out: &mut Writer<'_>)
    requires { Takes out.old (refusal_text (refusal_of number place)) }
    ensures { Appends out.old out.new (refusal_text (refusal_of number place)) }
{
    write_numbered(b"refused ", number, out);
    write_numbered(b" at ", place, out);
    out.byte(b'\n');
}

// The line of a refusal.
pub fn write_refusal(refusal: Refusal, out: &mut Writer<'_>)
    requires { Takes out.old (refusal_text (as_refusal refusal)) }
    ensures { Appends out.old out.new (refusal_text (as_refusal refusal)) }
{
    write_refused(refusal.number(), refusal.place(), out);
}
