//! Points in time: a [`Timestamp`] of seconds and nanoseconds.

ghost use Rattle.std.specs.Prelude.{◌≡◌, ◌↔◌, [], IfSome, IsSome, IsTrue};
ghost use Rattle.buffa_types.specs.Times.{IsInstant, IsTimestamp, nanoseconds};

use crate::messages::timestamp::Timestamp;
use buffa_fields::UnknownFields;
use std::alloc::Global;

// Whether there is a point in time of these seconds and nanoseconds.
fn is_in_range(seconds: i64, nanos: i32) -> bool
    ensures { IsTrue result ↔ IsTimestamp seconds nanos }
{
    -62_135_596_800 <= seconds && seconds <= 253_402_300_799 && 0 <= nanos && nanos <= 999_999_999
}

impl Timestamp {
    /// The point so many seconds and nanoseconds behind 1970-01-01T00:00:00Z, where it is one from 0001-01-01T00:00:00Z to
    /// 9999-12-31T23:59:59.999999999Z: the seconds are -62,135,596,800 to 253,402,300,799. The nanoseconds are 0 to 999,999,999:
    /// they count forward before 1970, too. What is out of range is `None`, and is never brought into it.
    ///
    /// ```ignore
    /// let half_a_second_before_1970 = Timestamp::new(alloc, -1, 500_000_000);
    /// ```
    pub fn new(alloc: Global, second: i64, nanosecond: i32) -> Option<Timestamp>
        ensures there { IsSome result ↔ IsTimestamp second nanosecond }
        ensures value { IfSome result (λ t. (t.seconds ≡ second) × (t.nanos ≡ nanosecond) × (t.unknown_fields.records ≡ [])) }
    {
        if !is_in_range(second, nanosecond) {
            return None;
        }
        Some(Timestamp {
            seconds: second,
            nanos: nanosecond,
            unknown_fields: UnknownFields::new(alloc),
        })
    }

    /// The point so many nanoseconds behind 1970-01-01T00:00:00Z, where it is in range as [`Timestamp::new`] has it.
    ///
    /// ```ignore
    /// let half_a_second_before_1970 = Timestamp::from_nanosecond(alloc, -500_000_000);
    /// ```
    pub fn from_nanosecond(alloc: Global, nanosecond: i128) -> Option<Timestamp>
        ensures there { IsSome result ↔ IsInstant nanosecond }
        ensures value { IfSome result (λ t. nanoseconds t.seconds t.nanos ≡ nanosecond) }
        ensures valid { IfSome result (λ t. IsTimestamp t.seconds t.nanos) }
        ensures rest { IfSome result (λ t. t.unknown_fields.records ≡ []) }
    {
        if nanosecond < -62_135_596_800_000_000_000 || nanosecond > 253_402_300_799_999_999_999 {
            return None;
        }
        let second = nanosecond.div_euclid(1_000_000_000);
        let rest = nanosecond.rem_euclid(1_000_000_000);
        Some(Timestamp {
            seconds: second as i64,
            nanos: rest as i32,
            unknown_fields: UnknownFields::new(alloc),
        })
    }

    /// Whether the seconds and the nanoseconds are in range, as [`Timestamp::new`] has it: what was read needn't be.
    ///
    /// ```ignore
    /// let is_valid = placed.is_valid();
    /// ```
    pub fn is_valid(&self) -> bool
        ensures { IsTrue result ↔ IsTimestamp self.now.seconds self.now.nanos }
    {
        is_in_range(self.seconds, self.nanos)
    }

    /// How many nanoseconds it is behind 1970-01-01T00:00:00Z: less than 0 before it. It may be out of range.
    ///
    /// ```ignore
    /// let nanoseconds = placed.as_nanosecond();
    /// ```
    pub fn as_nanosecond(&self) -> i128
        ensures { result ≡ nanoseconds self.now.seconds self.now.nanos }
    {
        self.seconds as i128 * 1_000_000_000 + self.nanos as i128
    }
}
