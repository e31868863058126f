// A list in a record is its count and the entries of its front. Past its front a list holds 9.
ghost use Rattle.std.specs.Prelude.{◌≡◌, true, ◌+◌, ◌≤◌, length, drop, map, IfSome};
ghost use Rattle.lists.specs.Lists.{from};
ghost use Rattle.formats.specs.Bytes.{number_at, number_size};
ghost use Rattle.call_records.specs.Reads.{list_left, filled_left, entries_read, bits_wanted};

use crate::entries::Entry;
use crate::fields::Fields;

// What a list of numbers holds past its front.
pub const NINE: usize = 9;

impl<'a> Fields<'a> {
    // The list that stands next, at the front of a room. `None` says also that the room is too short; so do the next two.
    pub fn list<'r, T: Entry>(&mut self, room: &'r mut [T]) -> Option<&'r mut [T]>
        ensures entries { IfSome result (λ list. length list.now ≡ number_at 0 self.old.rest.now) }
        ensures values { IfSome result (λ list. list.now ≡ entries_read T.SIZE T.value_of self.old.rest.now) }
        ensures left { IfSome result (λ list. self.new.rest.now ≡ list_left T.SIZE self.old.rest.now) }
    {
        let list = self.lend(room)?;
        for x in list.iter_mut() {
            *x = T::from_bits(T::next_bits(self)?);
        }
        Some(list)
    }

    // A list as long as the next number says, of a room.
    pub fn lend<'r, T: Entry>(&mut self, room: &'r mut [T]) -> Option<&'r mut [T]>
        ensures entries { IfSome result (λ list. length list.now ≡ number_at 0 self.old.rest.now) }
        ensures left { IfSome result (λ list. self.new.rest.now ≡ drop number_size self.old.rest.now) }
    {
        let count = self.number()?;
        room.get_mut(..count)
    }

    // A list as long as the next number says, with the front that stands then.
    pub fn lend_filled<'r, T: Entry>(&mut self, room: &'r mut [T]) -> Option<&'r mut [T]>
        ensures entries { IfSome result (λ list. length list.now ≡ number_at 0 self.old.rest.now) }
        ensures left { IfSome result (λ list. self.new.rest.now ≡ filled_left T.SIZE self.old.rest.now) }
    {
        let list = self.lend(room)?;
        self.list(list)?;
        Some(list)
    }

    // Whether a list holds the list that stands next, and 9 past it. It goes by bits, since 0 and -0 are equal, and no value of not-a-number is.
    pub fn agrees<T: Entry>(&mut self, list: &[T]) -> Option<bool>
        ensures room { IfSome result (λ same. same ≡ true → number_at 0 self.old.rest.now ≤ length list.now) }
        ensures entries { IfSome result (λ same. same ≡ true
            → map T.bits_of list.now ≡ map (bits_wanted T.SIZE T.NINE self.old.rest.now) (from 0 (length list.now))) }
        ensures left { IfSome result (λ same. same ≡ true → self.new.rest.now ≡ list_left T.SIZE self.old.rest.now) }
    {
        let count = self.number()?;
        for (i, x) in list.iter().enumerate() {
            let want = if i < count {
                T::next_bits(self)?
            } else {
                T::NINE
            };
            if x.to_bits() != want {
                return Some(false);
            }
        }
        Some(count <= list.len())
    }
}
