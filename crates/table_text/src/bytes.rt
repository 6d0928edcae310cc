// Bytes of a table's text: digits, what separates words, and numbers that grow digit by digit.
ghost use Rattle.std.specs.Prelude.{◌≡◌, get_or};
ghost use Rattle.table_text.specs.Bytes.{bump, more, low_word, is_blank, is_end, is_digit_of, trit_of, hex_of, below, letter_of, next_letter};

// The longest text that is read.
pub const MAX_TEXT: usize = 1048576;

// ---- numbers

// One more, up to a bound that no text reaches.
pub fn bumped(n: u32) -> u32
    ensures { result ≡ bump n }
{
    if n < 4194304 { n + 1 } else { n }
}

// A number with one digit more.
pub fn more(base: u8, value: u64, digit: u32) -> u64
    ensures { result ≡ more base value digit }
{
    if value < 4294967296 {
        u64::from(base) * value + u64::from(digit)
    } else {
        value
    }
}

// A number as a word, 0 past 32 bits.
pub fn low_word(value: u64) -> u32
    ensures { result ≡ low_word value }
{
    u32::try_from(value).unwrap_or(0)
}

// ---- bytes, as numbers of any size

// Space, tab and return.
#[tactic(auto, unfolding(crate::specs::Bytes::is_blank))]
pub fn is_blank(b: u32) -> bool
    ensures { result ≡ is_blank b }
{
    b == 32 || b == 9 || b == 13
}

// What ends a word of the rows: a blank, a line break or a slash.
#[tactic(auto, unfolding(crate::specs::Bytes::is_end))]
pub fn is_end(b: u32) -> bool
    ensures { result ≡ is_end b }
{
    is_blank(b) || b == 10 || b == 47
}

#[tactic(auto, unfolding(crate::specs::Bytes::is_digit_of))]
pub fn is_digit(b: u32) -> bool
    ensures { result ≡ is_digit_of b }
{
    48 <= b && b <= 57
}

// The trit of 0, 1, X or x.
#[tactic(auto, unfolding(crate::specs::Bytes::trit_of))]
pub fn trit_of(b: u32) -> Option<u8>
    ensures { result ≡ below 3 (trit_of b) }
{
    match b {
        48 => Some(0),
        49 => Some(1),
        88 | 120 => Some(2),
        _ => None,
    }
}

// The value of a hex digit: 0 to 9, a to f, A to F.
#[tactic(auto, unfolding(crate::specs::Bytes::hex_of, crate::specs::Bytes::is_digit_of))]
pub fn hex_of(b: u32) -> Option<u32>
    ensures { result ≡ below 16 (hex_of b) }
{
    match b {
        48..=57 => Some(b - 48),
        97..=102 => Some(b - 87),
        65..=70 => Some(b - 55),
        _ => None,
    }
}

// The letters of `plain` behind the first; not an index of `plain`, which would give p for 0, where the definition has n.
#[tactic(auto, unfolding(crate::specs::Bytes::letter_of))]
pub fn letter_of(k: u64) -> u8
    ensures { result ≡ letter_of k }
{
    match k {
        1 => b'l',
        2 => b'a',
        3 => b'i',
        _ => b'n',
    }
}

pub fn next_letter(k: u64) -> u64
    ensures { result ≡ next_letter k }
{
    if k < 4 { k + 1 } else { k }
}

// The byte at a place of a text, and a line break past its end.
pub fn byte_at(text: &[u8], i: usize) -> u8
    ensures { result ≡ get_or text.now i 10 }
{
    text.get(i).copied().unwrap_or(b'\n')
}
