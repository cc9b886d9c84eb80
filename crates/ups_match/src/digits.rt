ghost use Rattle.std.specs.Prelude.{◌≡◌, ◌+◌, ◌-◌, ◌≤◌, length, IsTrue, slice_index_or, [], ◌∷◌, take, drop};
ghost use Rattle.std.specs.Bool.{OnTrue};
ghost use Rattle.std.specs.List.{AllPass, list_all, prefix_len};
ghost use Rattle.std.specs.Char.{is_ascii_digit};
ghost use Rattle.ups_match.specs.Moments.{leading_digits, behind_digits, decimal_value, field};

/// Returns the number of digits at the front of a text.
fn leading_count(text: &[u8]) -> usize
    ensures value { result ≡ prefix_len is_ascii_digit text.now }
    ensures bound { result ≤ length text.now }
{
    text.iter().take_while(|byte| byte.is_ascii_digit()).count()
}

/// Returns the digits at the front of a text, and the rest.
pub(crate) fn split_digits(text: &[u8]) -> (&[u8], &[u8])
    ensures front { result.0.now ≡ leading_digits text.now }
    ensures behind { result.1.now ≡ behind_digits text.now }
    ensures digits { AllPass is_ascii_digit result.0.now }
{
    text.split_at(leading_count(text))
}

/// Returns whether each byte is a digit.
pub(crate) fn are_digits(text: &[u8]) -> bool
    ensures value { result ≡ list_all is_ascii_digit text.now }
    ensures digits { OnTrue result (AllPass is_ascii_digit text.now) }
{
    text.iter().all(|byte| byte.is_ascii_digit())
}

/// Returns the value of the digit at `place`, or that of the digit `absent` if the text ends before it.
pub(crate) fn digit_at(digits: &[u8], place: usize, absent: u8) -> u8
    requires digits { AllPass is_ascii_digit digits.now }
    requires absent { IsTrue (is_ascii_digit absent) }
    ensures value { result ≡ slice_index_or digits.now place absent - 48 }
    ensures bound { result ≤ 9 }
{
    digits.get(place).copied().unwrap_or(absent) - b'0'
}

/// Returns the number written by the two digits at `place`, with `absent` for each that is missing.
pub(crate) fn pair_at(digits: &[u8], place: usize, absent: u8) -> u8
    requires digits { AllPass is_ascii_digit digits.now }
    requires absent { IsTrue (is_ascii_digit absent) }
    requires place { place ≤ 12 }
    ensures value { result ≡ decimal_value (slice_index_or digits.now place absent ∷ slice_index_or digits.now (place + 1) absent ∷ []) }
    ensures bound { result ≤ 99 }
{
    10 * digit_at(digits, place, absent) + digit_at(digits, place + 1, absent)
}

/// Returns the number written by the two digits at `place`, or `absent` if the text ends before the second.
#[tactic(auto, using(crate::proofs::Fields::field_absent, crate::proofs::Fields::field_there))]
pub(crate) fn field_at(digits: &[u8], place: usize, absent: u8) -> u8
    requires digits { AllPass is_ascii_digit digits.now }
    requires place { place ≤ 12 }
    requires absent { absent ≤ 99 }
    ensures value { result ≡ field digits.now place absent }
    ensures bound { result ≤ 99 }
{
    if digits.len() < place + 2 {
        return absent;
    }
    pair_at(digits, place, b'0')
}
