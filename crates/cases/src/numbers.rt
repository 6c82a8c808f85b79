// Octal numbers in a text.
ghost use Rattle.std.specs.Prelude.{◌≤◌, length};

fn is_octal_digit(byte: &u8) -> bool {
    matches!(byte, b'0'..=b'7')
}

// The number of digits; bits beyond 64 are dropped.
fn number(digits: &[u8]) -> u64 {
    digits.iter().fold(0, |value: u64, digit| {
        value.wrapping_mul(8).wrapping_add(u64::from(digit % 8))
    })
}

// The numbers of a text, in order, to the front of `to`, as many as there is room for; how many. What is no octal digit
// ends a number; digits at the text's end are none.
pub(crate) fn put_numbers(text: &[u8], to: &mut [u64]) -> usize
    ensures { result ≤ length to.new }
{
    let ended = match text.iter().rposition(|byte| !is_octal_digit(byte)) {
        Some(end) => &text[..end],
        None => &[],
    };
    let numbers = ended
        .split(|byte| !is_octal_digit(byte))
        .filter(|digits| !digits.is_empty())
        .map(number);
    let mut count = 0;
    for value in numbers {
        if count == to.len() {
            break;
        }
        to[count] = value;
        count += 1;
    }
    count
}
