// Names in lower case digits, gone over once.
ghost use Rattle.std.specs.Prelude.{◌≡◌, ◌++◌, ℕ, List, IfNone, IfSome};
ghost use Rattle.hex.specs.Hex.{encode_lower};
ghost use Rattle.rad_base.specs.Hexadecimal.{IsHexText};
ghost use Rattle.rad_base.specs.Sizes.{IsOid};
ghost use Rattle.git_object.specs.Digits.{digit_value};

use rad_base::Oid;

// The value of each byte as a digit; 16 where it is none.
const VALUES: [u8; 256] = [
    16, 16, 16, 16, 16, 16, 16, 16, 16, 16, 16, 16, 16, 16, 16, 16, 16, 16, 16, 16, 16, 16, 16, 16,
    16, 16, 16, 16, 16, 16, 16, 16, 16, 16, 16, 16, 16, 16, 16, 16, 16, 16, 16, 16, 16, 16, 16, 16,
    0, 1, 2, 3, 4, 5, 6, 7, 8, 9, 16, 16, 16, 16, 16, 16, 16, 16, 16, 16, 16, 16, 16, 16, 16, 16,
    16, 16, 16, 16, 16, 16, 16, 16, 16, 16, 16, 16, 16, 16, 16, 16, 16, 16, 16, 16, 16, 16, 16, 10,
    11, 12, 13, 14, 15, 16, 16, 16, 16, 16, 16, 16, 16, 16, 16, 16, 16, 16, 16, 16, 16, 16, 16, 16,
    16, 16, 16, 16, 16, 16, 16, 16, 16, 16, 16, 16, 16, 16, 16, 16, 16, 16, 16, 16, 16, 16, 16, 16,
    16, 16, 16, 16, 16, 16, 16, 16, 16, 16, 16, 16, 16, 16, 16, 16, 16, 16, 16, 16, 16, 16, 16, 16,
    16, 16, 16, 16, 16, 16, 16, 16, 16, 16, 16, 16, 16, 16, 16, 16, 16, 16, 16, 16, 16, 16, 16, 16,
    16, 16, 16, 16, 16, 16, 16, 16, 16, 16, 16, 16, 16, 16, 16, 16, 16, 16, 16, 16, 16, 16, 16, 16,
    16, 16, 16, 16, 16, 16, 16, 16, 16, 16, 16, 16, 16, 16, 16, 16, 16, 16, 16, 16, 16, 16, 16, 16,
    16, 16, 16, 16, 16, 16, 16, 16, 16, 16, 16, 16, 16, 16,
];

// The value of a digit; 16 for every other byte.
fn digit_value(c: u8) -> u8
    ensures { result ≡ digit_value c }
{
    VALUES[usize::from(c)]
}

// The name that the digits spell. None where one of them is no digit.
fn name_in(digits: &[u8; 40]) -> Option<Oid>
    ensures found { IfSome result (λ oid. IsOid oid × (digits.now ≡ encode_lower oid.0)) }
    ensures none { IfNone result (IsHexText 20 digits.now → ⊥) }
{
    let mut name = [0; 20];
    for i in 0..20 {
        let high = digit_value(digits[2 * i]);
        let low = digit_value(digits[2 * i + 1]);
        if high > 15 || low > 15 {
            return None;
        }
        name[i] = high * 16 + low;
    }
    Some(Oid(name))
}

/// The object's name that the first 40 bytes spell in lower case digits, and what stands behind it.
/// None where they spell none.
pub(crate) fn name_front(bytes: &[u8]) -> Option<(Oid, &[u8])>
    ensures found { IfSome result (λ x. IsOid x.0 × (bytes.now ≡ encode_lower x.0.0 ++ x.1.now)) }
    ensures none { IfNone result
        ((oid : Oid) (rest : List ℕ) → IsOid oid → bytes.now ≡ encode_lower oid.0 ++ rest → ⊥) }
{
    let (digits, rest) = bytes.split_first_chunk::<40>()?;
    let oid = name_in(digits)?;
    Some((oid, rest))
}
