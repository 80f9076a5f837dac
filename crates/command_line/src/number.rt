//! Numbers in words.

ghost use Rattle.std.specs.Prelude.{◌≡◌};
ghost use Rattle.command_line.specs.Command as spec;

/// The number that a word is: one or more decimal digits, of a number that isn't above `most`.
pub fn number_up_to(most: u32, word: &[u8]) -> Option<u32>
    ensures { result ≡ spec.number_up_to most word.now }
{
    if word.is_empty() {
        return None;
    }
    let mut number = 0u64;
    for b in word {
        if *b < b'0' || *b > b'9' {
            return None;
        }
        number = number * 10 + (*b - b'0') as u64;
        if number > most as u64 {
            return None;
        }
    }
    Some(number as u32)
}
