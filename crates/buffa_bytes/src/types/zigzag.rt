//! Zigzag: signed numbers of small magnitude as small numbers.

ghost use Rattle.std.specs.Prelude.{◌≡◌};
ghost use Rattle.buffa_bytes.specs.Scalars.{unzigzag, zigzag};

/// The zigzag of a number: `2v` for v of 0 or more, else `-2v - 1`. Source: the protobuf encoding
/// guide, "Signed Integers".
///
/// ```ignore
/// let number = zigzag_encode_i32(-1); // 1
/// ```
#[tactic(auto, using(crate::proofs::ScalarLemmas::zigzag_fits32))]
pub fn zigzag_encode_i32(value: i32) -> u32
    ensures { result ≡ zigzag value }
{
    zigzag_encode_i64(i64::from(value)) as u32
}

/// The number whose zigzag this is.
///
/// ```ignore
/// let value = zigzag_decode_i32(2); // 1
/// ```
#[tactic(auto, using(crate::proofs::ScalarLemmas::unzigzag_fits32))]
pub fn zigzag_decode_i32(number: u32) -> i32
    ensures { result ≡ unzigzag number }
{
    zigzag_decode_i64(u64::from(number)) as i32
}

/// The zigzag of a number: `2v` for v of 0 or more, else `-2v - 1`. Source: the protobuf encoding
/// guide, "Signed Integers".
///
/// ```ignore
/// let number = zigzag_encode_i64(-2); // 3
/// ```
pub fn zigzag_encode_i64(value: i64) -> u64
    ensures { result ≡ zigzag value }
{
    if value < 0 {
        2 * (-(value + 1)).cast_unsigned() + 1
    } else {
        2 * value.cast_unsigned()
    }
}

/// The number whose zigzag this is.
///
/// ```ignore
/// let value = zigzag_decode_i64(4); // 2
/// ```
pub fn zigzag_decode_i64(number: u64) -> i64
    ensures { result ≡ unzigzag number }
{
    let half = (number / 2).cast_signed();
    if number % 2 == 0 { half } else { -half - 1 }
}
