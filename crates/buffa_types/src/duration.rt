//! Lengths of time: a [`Duration`] of seconds and nanoseconds, forward or back.

ghost use Rattle.std.specs.Prelude.{◌≡◌, ◌↔◌, [], IfSome, IsSome, IsTrue};
ghost use Rattle.buffa_types.specs.Times.{IsDuration, IsLength, nanoseconds};

use crate::messages::duration::Duration;
use buffa_fields::UnknownFields;
use std::alloc::Global;

// Whether there is a length of time of these seconds and nanoseconds.
fn is_in_range(seconds: i64, nanos: i32) -> bool
    ensures { IsTrue result ↔ IsDuration seconds nanos }
{
    let has_one_sign = (seconds <= 0 || 0 <= nanos) && (0 <= seconds || nanos <= 0);
    -315_576_000_000 <= seconds
        && seconds <= 315_576_000_000
        && -999_999_999 <= nanos
        && nanos <= 999_999_999
        && has_one_sign
}

impl Duration {
    /// The length of so many seconds, -315,576,000,000 to 315,576,000,000, and so many nanoseconds, -999,999,999 to 999,999,999,
    /// where neither is less than 0 while the other is more. What is out of range is `None`, and is never brought into it.
    ///
    /// ```ignore
    /// let a_second_and_a_half_back = Duration::new(alloc, -1, -500_000_000);
    /// ```
    pub fn new(alloc: Global, seconds: i64, nanos: i32) -> Option<Duration>
        ensures there { IsSome result ↔ IsDuration seconds nanos }
        ensures value { IfSome result (λ d. (d.seconds ≡ seconds) × (d.nanos ≡ nanos) × (d.unknown_fields.records ≡ [])) }
    {
        if !is_in_range(seconds, nanos) {
            return None;
        }
        Some(Duration {
            seconds,
            nanos,
            unknown_fields: UnknownFields::new(alloc),
        })
    }

    /// The length of so many nanoseconds, where it is in range as [`Duration::new`] has it.
    ///
    /// ```ignore
    /// let a_second_and_a_half_back = Duration::from_nanos(alloc, -1_500_000_000);
    /// ```
    pub fn from_nanos(alloc: Global, nanos: i128) -> Option<Duration>
        ensures there { IsSome result ↔ IsLength nanos }
        ensures value { IfSome result (λ d. nanoseconds d.seconds d.nanos ≡ nanos) }
        ensures valid { IfSome result (λ d. IsDuration d.seconds d.nanos) }
        ensures rest { IfSome result (λ d. d.unknown_fields.records ≡ []) }
    {
        if nanos < -315_576_000_000_999_999_999 || nanos > 315_576_000_000_999_999_999 {
            return None;
        }
        let size = nanos.unsigned_abs();
        let seconds = (size / 1_000_000_000) as i64;
        let above = (size % 1_000_000_000) as i32;
        let unknown_fields = UnknownFields::new(alloc);
        if nanos < 0 {
            Some(Duration {
                seconds: -seconds,
                nanos: -above,
                unknown_fields,
            })
        } else {
            Some(Duration {
                seconds,
                nanos: above,
                unknown_fields,
            })
        }
    }

    /// Whether the seconds and the nanoseconds are in range, as [`Duration::new`] has it: what was read needn't be.
    ///
    /// ```ignore
    /// let is_valid = delay.is_valid();
    /// ```
    pub fn is_valid(&self) -> bool
        ensures { IsTrue result ↔ IsDuration self.now.seconds self.now.nanos }
    {
        is_in_range(self.seconds, self.nanos)
    }

    /// How many nanoseconds long it is: less than 0 where it goes back. It may be out of range.
    ///
    /// ```ignore
    /// let nanoseconds = delay.as_nanos();
    /// ```
    pub fn as_nanos(&self) -> i128
        ensures { result ≡ nanoseconds self.now.seconds self.now.nanos }
    {
        self.seconds as i128 * 1_000_000_000 + self.nanos as i128
    }
}
