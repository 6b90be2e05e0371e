//! Numbers in decimal digits.
ghost use Rattle.std.specs.Prelude.{◌≡◌, ◌≤◌, IfSome, is_some};
ghost use Rattle.std.specs.List.{list_all};
ghost use Rattle.std.specs.Fmt.{decimal};
ghost use Rattle.std.specs.Char.{is_ascii_digit};
ghost use Rattle.std.specs.Str.Parse.{digits_value};
ghost use Rattle.oak_script.specs.Numbers.{is_decimal, is_number, is_number_in};

fn are_decimal_digits(word: &[u8]) -> bool
    ensures { result ≡ list_all is_ascii_digit word.now }
{
    word.iter().all(|b| b.is_ascii_digit())
}

/// Whether the word is a number without sign and leading zero, of any size.
fn is_decimal(word: &[u8]) -> bool
    ensures { result ≡ is_decimal word.now }
{
    match word {
        [] => false,
        [b] => b.is_ascii_digit(),
        [b'0', ..] => false,
        _ => are_decimal_digits(word),
    }
}

/// The number that a word spells.
pub fn number_of(word: &[u8]) -> Option<u64>
    ensures spelled { IfSome result (λ n. decimal n ≡ word.now) }
    ensures found { is_some result ≡ is_number word.now }
{
    if !is_decimal(word) {
        return None;
    }
    match str::from_utf8(word) {
        Ok(text) => text.parse::<u64>().ok(),
        Err(_) => None,
    }
}

/// The number of this range that a word spells.
pub fn number_in(word: &[u8], least: u32, greatest: u32) -> Option<u32>
    ensures spelled { IfSome result (λ n. decimal n ≡ word.now) }
    ensures value { IfSome result (λ n. n ≡ digits_value 10 word.now) }
    ensures least { IfSome result (λ n. least ≤ n) }
    ensures greatest { IfSome result (λ n. n ≤ greatest) }
    ensures found { is_some result ≡ is_number_in least greatest word.now }
{
    let number = number_of(word)?;
    if u64::from(least) <= number && number <= u64::from(greatest) {
        Some(number as u32)
    } else {
        None
    }
}
