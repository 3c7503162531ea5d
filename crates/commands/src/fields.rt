// Reading the fields of a sentence's body.
ghost use Rattle.std.specs.Prelude.{◌≡◌, ◌≤◌, not, ◌∷◌, length};
ghost use Rattle.std.specs.Option.{option_map, option_flatten};
ghost use Rattle.std.specs.List.{prefix_len};
ghost use Rattle.commands.specs.Fields.{is_comma, digit_of, only_field, one_digit, up_to_five_digits, digit_fields};
ghost use Rattle.commands.specs.Commands.{rates_request};

use arrayvec::ArrayVec;

// How many bytes stand before the first comma.
pub(crate) fn address_size(body: &[u8]) -> usize
    ensures size { result ≡ prefix_len (λ b. not (is_comma b)) body.now }
    ensures within { result ≤ length body.now }
{
    body.iter().position(|b| *b == b',').unwrap_or(body.len())
}

// The value of a decimal digit.
fn digit(b: u8) -> Option<u8>
    ensures { result ≡ digit_of b }
{
    match b {
        b'0'..=b'9' => Some(b - b'0'),
        _ => None,
    }
}

// The digit of the only field, where that is one digit.
pub(crate) fn one_digit(rest: &[u8]) -> Option<u8>
    ensures { result ≡ option_flatten (option_map one_digit (only_field rest.now)) }
{
    match rest {
        [b',', b] => digit(*b),
        _ => None,
    }
}

// The number that one to five digits name; `parse` would take a plus sign too.
fn number(field: &[u8]) -> Option<u32>
    ensures { result ≡ up_to_five_digits field.now }
{
    if field.is_empty() || field.len() > 5 {
        return None;
    }
    let mut number = 0u32;
    for b in field {
        number = number * 10 + u32::from(digit(*b)?);
    }
    Some(number)
}

// The number of the only field, where that is one to five digits.
pub(crate) fn up_to_five_digits(rest: &[u8]) -> Option<u32>
    ensures { result ≡ option_flatten (option_map up_to_five_digits (only_field rest.now)) }
{
    match rest {
        [b',', field @ ..] => number(field),
        _ => None,
    }
}

// The digit at the start of a field, if one stands there, and what stands behind it.
#[tactic(auto, using(crate::proofs::DigitFields::no_digit))]
fn split_digit(field: &[u8]) -> (Option<u8>, &[u8])
    ensures fields { digit_fields (0x2c ∷ field.now) ≡ option_map (λ more. result.0 ∷ more) (digit_fields result.1.now) }
    ensures behind { length result.1.now ≤ length field.now }
{
    match field {
        [] => (None, field),
        [b, behind @ ..] => match digit(*b) {
            Some(digit) => (Some(digit), behind),
            None => (None, field),
        },
    }
}

// Fields of one digit or none; none where one is neither, or where there are more than 14.
pub(crate) fn digit_fields(rest: &[u8]) -> Option<ArrayVec<Option<u8>, 14>>
    ensures { rates_request (option_map (λ v. v.items) result) ≡ rates_request (digit_fields rest.now) }
{
    let mut digits = ArrayVec::new();
    let mut rest = rest;
    while let [b',', field @ ..] = rest {
        let (digit, behind) = split_digit(field);
        digits.try_push(digit).ok()?;
        rest = behind;
    }
    rest.is_empty().then_some(digits)
}
