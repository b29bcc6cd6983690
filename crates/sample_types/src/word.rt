//! A key type of one's own: a text that overlooks the case of ASCII letters.

ghost use Rattle.std.specs.Prelude.{◌≡◌, [], fold, nat_eq, refl, string_bytes};
ghost use Rattle.std.specs.Cmp.Lexicographic.{nat_list_eq_equiv, pointwise};
ghost use Rattle.std.specs.Cmp.Rules.{comparing, hashing};
ghost use Rattle.std.specs.Cmp.{on_equiv};
ghost use Rattle.std.specs.Hash as fed;
ghost use Rattle.std.specs.Ordering.{on};
ghost use Rattle.std.proofs.Common.{rules};
ghost use Rattle.buffa_bytes.specs.Delimited.{string_is_text};
ghost use Rattle.sample_types.specs.Letters.{lower, same_letters};

use buffa_bytes::{Blank, DecodeError, MapKey, ProtoString};
use std::alloc::Global;
use std::hash::{Hash, Hasher};

/// A text; `Bee` and `BEE` are one key, which a map stores as it first came.
///
/// ```ignore
/// let mut words: Map<Word, bool> = Map::new(alloc);
/// read_map_field::<ProtoStringMap<Word>, Bool, _, _>(alloc, &mut words, 1, &mut rest, ctx, None)?;
/// ```
#[derive(Drop)]
pub struct Word {
    /// The text as it came.
    pub text: String,
}

impl PartialEq for Word {
    ghost eq = { on (λ word. lower (string_bytes word.text)) (pointwise nat_eq) };

    ghost laws = { Prim.search (comparing, rules) };

    fn eq(&self, other: &Word) -> bool {
        let one: &[u8] = self.text.as_bytes();
        let two: &[u8] = other.text.as_bytes();
        one.eq_ignore_ascii_case(two)
    }
}

impl Eq for Word {
    ghost laws = { Prim.search (comparing, rules) };
}

// Feeds the letters in lower case.
fn hash_lower<H: Hasher>(letters: &[u8], state: &mut H)
    ensures { state.new ≡ fold H.write state.old (fed.slice fed.u8 (lower letters.now)) }
{
    state.write_usize(letters.len());
    for letter in letters {
        state.write_u8(letter.to_ascii_lowercase());
    }
}

impl Hash for Word {
    ghost hash_input = { λ word. fed.slice fed.u8 (lower (string_bytes word.text)) };

    ghost respects_eq = { Prim.search (hashing, rules) };

    fn hash<H: Hasher>(&self, state: &mut H) {
        hash_lower(self.text.as_bytes(), state);
    }
}

impl Blank for Word {
    type Meaning = [u8; 0];

    ghost meaning = { λ word. string_bytes word.text };

    ghost blank_is = { [] };

    fn blank(alloc: Global) -> Word {
        Word {
            text: String::new(alloc),
        }
    }
}

impl MapKey for Word {
    ghost same = { same_letters };

    ghost equivalence = { on_equiv lower nat_list_eq_equiv };

    ghost respects = { λ one two. refl };
}

impl ProtoString for Word {
    ghost text = { λ text. text };

    ghost of_text = { λ text. text };

    fn from_wire(alloc: Global, bytes: &[u8]) -> Result<Word, DecodeError> {
        let text = <String as ProtoString>::from_wire(alloc, bytes)?;
        Ok(Word { text })
    }

    fn as_str(&self) -> &str {
        self.text.as_str()
    }

    ghost is_text = { λ word. string_is_text word.text };

    ghost text_stays = { λ bytes good. refl };

    ghost meaning_stays = { λ text. refl };

    ghost blank_text = { refl };
}
