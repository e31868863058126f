// The fields of a record, read one after the other. `None` says that the record ends before the field does.
ghost use Rattle.std.specs.Prelude.{◌≡◌, true, ◌↔◌, ◌+◌, ◌^◌, ◌≤◌, ◌<◌, length, take, drop, MatchOption, IfSome};
ghost use Rattle.formats.specs.Bytes.{field, number_at, numbers_at, number_size};
ghost use Rattle.config.specs.Params.{threshold_policy, settings_of_lem};
ghost use Rattle.call_records.specs.Reads.{Reads, ReadsAll, bytes_size, bytes_read, policy_read, settings_read};

use config::{DDMParams, Settings, SizePolicy};

// What is left of a record.
#[derive(Clone, Copy)]
pub struct Fields<'a> {
    rest: &'a [u8],
}

impl<'a> Fields<'a> {
    pub fn of(record: &'a [u8]) -> Fields<'a>
        ensures { result.rest.now ≡ «record».now }
    {
        Fields { rest: record }
    }

    // Whether the record ends here.
    pub fn ended(&self) -> bool
        ensures { result ≡ true ↔ length self.now.rest.now ≡ 0 }
    {
        self.rest.is_empty()
    }

    // The next N bytes.
    fn take<const N: usize>(&mut self) -> Option<[u8; N]>
        ensures { Reads N (take N) self.old.rest.now self.new.rest.now result }
    {
        let (field, rest) = self.rest.split_first_chunk::<N>()?;
        self.rest = rest;
        Some(*field)
    }

    // The number of one byte.
    pub fn byte(&mut self) -> Option<u8>
        ensures { Reads 1 (field 1 0) self.old.rest.now self.new.rest.now result }
    {
        let [byte] = self.take::<1>()?;
        Some(byte)
    }

    fn word(&mut self) -> Option<u32>
        ensures { Reads number_size (number_at 0) self.old.rest.now self.new.rest.now result }
    {
        Some(u32::from_le_bytes(self.take()?))
    }

    // The number of four bytes.
    pub fn number(&mut self) -> Option<usize>
        ensures number { Reads number_size (number_at 0) self.old.rest.now self.new.rest.now result }
        ensures bound { IfSome result (λ n. n < 2 ^ 32) }
    {
        Some(self.word()? as usize)
    }

    // The bits of eight bytes.
    pub fn bits(&mut self) -> Option<u64>
        ensures { Reads 8 (field 8 0) self.old.rest.now self.new.rest.now result }
    {
        Some(u64::from_le_bytes(self.take()?))
    }

    // A count that has eight bytes.
    pub fn count(&mut self) -> Option<usize>
        ensures { Reads 8 (field 8 0) self.old.rest.now self.new.rest.now result }
    {
        Some(self.bits()? as usize)
    }

    // Four numbers.
    pub fn counts(&mut self) -> Option<[usize; 4]>
        ensures { ReadsAll 16 (numbers_at 4 0) self.old.rest.now self.new.rest.now result }
    {
        Some([
            self.number()?,
            self.number()?,
            self.number()?,
            self.number()?,
        ])
    }

    // A count of bytes, and as many bytes.
    pub fn bytes(&mut self) -> Option<&'a [u8]>
        ensures { MatchOption result (length self.old.rest.now < bytes_size self.old.rest.now) (λ bytes. (bytes_size self.old.rest.now ≤ length self.old.rest.now) × (bytes.now ≡ bytes_read self.old.rest.now) × (self.new.rest.now ≡ drop (bytes_size self.old.rest.now) self.old.rest.now)) }
    {
        let count = self.number()?;
        let (bytes, rest) = self.rest.split_at_checked(count)?;
        self.rest = rest;
        Some(bytes)
    }

    fn policy(&mut self) -> Option<SizePolicy>
        ensures { MatchOption result (length self.old.rest.now < 5) (λ policy. (5 ≤ length self.old.rest.now) × (threshold_policy policy ≡ policy_read self.old.rest.now) × (self.new.rest.now ≡ drop 5 self.old.rest.now)) }
    {
        let kind = self.byte()?;
        let threshold = self.word()?;
        Some(SizePolicy::of(kind as usize, threshold))
    }

    pub fn settings(&mut self) -> Option<Settings>
        ensures { MatchOption result (length self.old.rest.now < 18) (λ settings. (18 ≤ length self.old.rest.now) × (settings_of_lem settings.dimensions settings.params ≡ settings_read self.old.rest.now) × (self.new.rest.now ≡ drop 18 self.old.rest.now)) }
    {
        Some(Settings {
            dimensions: self.byte()? as usize,
            params: DDMParams {
                leaf_threshold: self.word()?,
                overlap_knn: self.word()?,
                coarse_reduction_factor: self.word()?,
                coarse_threshold: self.policy()?,
            },
        })
    }
}
