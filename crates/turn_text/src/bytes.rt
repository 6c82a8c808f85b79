// Words of bytes, high byte first.
ghost use Rattle.std.specs.Prelude.{◌≡◌, ◌≤◌, ◌/◌, length, take};
ghost use Rattle.turn_text.specs.Bytes.{bytes_as_words};

// The words of the bytes, to the front of `words`; how many they are.
pub fn put_words(bytes: &[u8], words: &mut [u16]) -> usize
    requires { length bytes.now / 2 ≤ length words.old }
    ensures upper_bound { result ≤ length words.new }
    ensures words_after { take result words.new ≡ bytes_as_words bytes.now }
{
    let count = bytes.len() / 2;
    // By index: tried with `chunks_exact(2)` beside `enumerate` or `iter_mut`, where the proof knows no chunk's place.
    for i in 0..count {
        words[i] = u16::from_be_bytes([bytes[i * 2], bytes[i * 2 + 1]]);
    }
    count
}
