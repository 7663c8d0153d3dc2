//! Pictures: how many characters they describe, and of which sort.
ghost use Rattle.std.specs.Prelude.{◌≡◌, ◌≤◌, true, length, min, option_map, take_while};
ghost use Rattle.std.specs.List.{list_all};
ghost use Rattle.com_text.specs.Digits.{number};
ghost use Rattle.com_text.specs.Name.{is_digit};
ghost use Rattle.cob_data.specs.Pictures.{characters, most, size_of, sort_of, unit_by, unit_of};

use crate::ItemSort;

/// One more than the most characters that a picture may describe. A count is not followed past it.
const PAST: u32 = 2001;

/// What an item is by its picture.
pub(crate) fn sort_of(picture: &[u8]) -> ItemSort
    ensures { result ≡ sort_of picture.now }
{
    match picture {
        [b'9', ..] => ItemSort::Numeric,
        _ => ItemSort::Alphanumeric,
    }
}

/// How many characters a picture describes, where it is well formed.
pub(crate) fn size_of(picture: &[u8]) -> Option<u32>
    ensures { result ≡ size_of picture.now }
{
    let (unit, most) = match sort_of(picture) {
        ItemSort::Numeric => (b'9', 18),
        ItemSort::Alphanumeric | ItemSort::Group => (b'X', 2000),
    };
    match characters(unit, picture) {
        Some(n) if 1 <= n && n <= most => Some(n),
        _ => None,
    }
}

/// How many characters a run of one unit describes, or [`PAST`] where they are more.
fn characters(unit: u8, picture: &[u8]) -> Option<u32>
    ensures { result ≡ option_map (λ n. min n PAST) (characters unit 0 picture.now) }
{
    let mut total = 0;
    let mut rest = picture;
    'units: while let Some((byte, behind)) = rest.split_first() {
        if *byte != unit {
            return None;
        }
        let (count, counted) = count_at(behind);
        total = (total + count).min(PAST);
        (_, rest) = behind.split_at(counted);
    }
    Some(total)
}

/// For how many characters a unit stands, or [`PAST`] where they are more, by what is behind it;
/// and how many bytes the count has.
fn count_at(behind: &[u8]) -> (u32, usize)
    ensures count { result.0 ≡ min (unit_by behind.now).0 PAST }
    ensures counted { result.1 ≡ (unit_by behind.now).1 }
    ensures within { result.1 ≤ length behind.now }
{
    let [b'(', inside @ ..] = behind else {
        return (1, 0);
    };
    let (digits, closing) = inside.split_at(digit_count(inside));
    match closing {
        [b')', ..] if !digits.is_empty() => (number_up_to(digits), 2 + digits.len()),
        _ => (1, 0),
    }
}

/// How many digits stand at the front.
fn digit_count(bytes: &[u8]) -> usize
    ensures count { result ≡ length (take_while is_digit bytes.now) }
    ensures within { result ≤ length bytes.now }
{
    bytes
        .iter()
        .take_while(|byte| byte.is_ascii_digit())
        .count()
}

/// The number that digits write, or [`PAST`] where it is greater.
fn number_up_to(digits: &[u8]) -> u32
    requires { list_all is_digit digits.now ≡ true }
    ensures { result ≡ min (number digits.now) PAST }
{
    let mut number = 0;
    'digits: for digit in digits {
        number = (10 * number + u32::from(*digit - b'0')).min(PAST);
    }
    number
}
