ghost use Rattle.std.specs.Prelude.{◌≡◌, ◌≤◌, ◌^◌, SomeIff, true};
ghost use Rattle.std.specs.List.{list_all};
ghost use Rattle.sql_words.specs.Bytes.{is_digit};
ghost use Rattle.sql_words.specs.Front.{value_of};

const GREATEST: u64 = 9223372036854775808;

/// The number that digits spell. None where it is above 2^63.
pub fn number_in(digits: &[u8]) -> Option<u64>
    requires { list_all is_digit digits.now ≡ true }
    ensures { SomeIff result (value_of digits.now ≤ 2 ^ 63) (value_of digits.now) }
{
    let mut number: u64 = 0;
    for digit in digits {
        if number > GREATEST / 10 {
            return None;
        }
        number = number * 10 + u64::from(*digit - b'0');
    }
    if number > GREATEST {
        None
    } else {
        Some(number)
    }
}
