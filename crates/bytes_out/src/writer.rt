// A writer: a lent list of bytes and the next place in it. What is appended stands behind what was appended before. No Vec, since the library
// takes no memory; and no `Cursor` of the library's, each of whose writes answers a result, though the room is promised.

ghost use Rattle.std.specs.Prelude.{[], ◌∷◌, map};
ghost use Rattle.lists.specs.Lists.{joined};
ghost use Rattle.formats.specs.Bytes.{bytes_of, mark_bytes};
ghost use Rattle.bytes_in.specs.Marks.{mark_read};
ghost use Rattle.bytes_out.specs.Writing.{Takes, Appends};

use crate::Field;
use bytes_in::MARK;

#[derive(Drop)]
pub struct Writer<'a> {
    pub bytes: &'a mut [u8],
    pub at: usize,
}

impl Writer<'_> {
    // Appends one byte.
    pub fn byte(&mut self, b: u8)
        requires { Takes self.old (b ∷ []) }
        ensures { Appends self.old self.new (b ∷ []) }
    {
        self.bytes[self.at] = b;
        self.at += 1;
    }

    // Appends the lowest byte of a number.
    pub fn low_byte(&mut self, n: usize)
        requires { Takes self.old (bytes_of 1 n) }
        ensures { Appends self.old self.new (bytes_of 1 n) }
    {
        self.byte((n % 256) as u8);
    }

    // Appends a text that stands in another list.
    pub fn text(&mut self, text: &[u8])
        requires { Takes self.old text.now }
        ensures { Appends self.old self.new text.now }
    {
        let end = self.at + text.len();
        self.bytes[self.at..end].copy_from_slice(text);
        self.at = end;
    }

    // Appends a record's mark.
    pub fn mark(&mut self, mark: [u8; MARK])
        requires { Takes self.old (mark_bytes (mark_read mark)) }
        ensures { Appends self.old self.new (mark_bytes (mark_read mark)) }
    {
        self.text(&mark);
    }

    // Appends a number or a float.
    pub fn field<T: Field>(&mut self, x: T)
        requires { Takes self.old (T.bytes x) }
        ensures { Appends self.old self.new (T.bytes x) }
    {
        x.append(self);
    }

    // Appends numbers or floats, one after the other.
    pub fn fields<T: Field>(&mut self, xs: &[T])
        requires { Takes self.old (joined (map T.bytes xs.now)) }
        ensures { Appends self.old self.new (joined (map T.bytes xs.now)) }
    {
        for &x in xs {
            x.append(self);
        }
    }
}
