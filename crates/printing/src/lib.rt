// The numbers of a list in print, for the program that runs edges.
#![tactic(auto)]

ghost use Rattle.std.specs.Prelude.{◌≡◌, min, length, take, Some};
ghost use Rattle.printing.specs.Texts.{numbers_text};

use std::fmt;

// A list of numbers, which prints as a space and the number for each.
#[derive(Clone, Copy)]
pub struct Numbers<'a>(pub &'a [usize]);

impl<'a> Numbers<'a> {
    // The first `most` numbers of a list.
    pub fn front(list: &'a [usize], most: usize) -> Numbers<'a>
        ensures { result.0.now ≡ take (min most (length list.now)) list.now }
    {
        Numbers(&list[..most.min(list.len())])
    }
}

impl fmt::Display for Numbers<'_> {
    ghost output = { λ ns. Some (numbers_text ns.0.now) };

    fn fmt<W: fmt::Write>(&self, f: &mut fmt::Formatter<W>) -> fmt::Result {
        for &n in self.0 {
            write!(f, " {n}")?;
        }
        Ok(())
    }
}
