// A seat's number as it stands in an argument.
ghost use Rattle.std.specs.Prelude.{◌+◌, ◌-◌, ◌*◌, ◌≤◌, ◌≡◌};
ghost use Rattle.tray_file.specs.SeatNumber.{is_number, number_of, or_forty};

use tray::SEATS;

// Whether these are decimal digits, one at least.
pub fn is_number(text: &[u8]) -> bool
    ensures { result ≡ is_number text.now }
{
    !text.is_empty() && text.iter().all(|byte| byte.is_ascii_digit())
}

// The number of these digits, or 40 where it is above: so no length of it overflows. No error, since a seat above is for the crate tray to
// refuse, and `or_forty` is what is promised.
pub fn seat_number(digits: &[u8]) -> usize
    ensures { result ≡ or_forty (number_of digits.now) }
{
    let mut number = 0;
    for digit in digits {
        number = with_digit(number, *digit);
    }
    number
}

// Of what is no digit it does not matter what is added.
#[tactic(auto, using(crate::proofs::NumberLaws::min_forty))]
fn with_digit(number: usize, digit: u8) -> usize
    requires { number ≤ 40 }
    ensures { result ≡ or_forty (number * 10 + (digit - 48)) }
{
    SEATS.min(number * 10 + digit.saturating_sub(b'0') as usize)
}
