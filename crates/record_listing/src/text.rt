// Pieces of text, stored one after another in a lent array: what lies past its end is not stored.
ghost use Rattle.std.specs.Prelude.{◌≡◌, ◌+◌, ◌≤◌, ◌<◌, [], ◌∷◌, length, drop};
ghost use Rattle.rules.specs.Lister.{decimal};
ghost use Rattle.record_listing.specs.Put.{max_place, Added};

// A lent array, and the place behind the text so far.
#[derive(Drop)]
pub struct Text<'a> {
    pub out: &'a mut [u8],
    pub at: usize,
}

// The decimal digits of a number, at the end of an array; where they start.
fn digits_of(digits: &mut [u8; 10], n: usize) -> usize
    ensures { (drop result digits.new ≡ decimal n) × (result ≤ 10) }
{
    let mut left = n;
    for i in (0..10).rev() {
        digits[i] = b'0' + (left % 10) as u8;
        if left < 10 {
            return i;
        }
        left /= 10;
    }
    0
}

impl Text<'_> {
    // Stores bytes.
    pub fn put(&mut self, text: &[u8])
        ensures { self.old.at + length text.now ≤ max_place → Added self.old text.now self.new }
    {
        lists::copy(self.out, self.at, text);
        self.at = self.at.saturating_add(text.len());
    }

    // Stores one byte.
    pub fn put_byte(&mut self, byte: u8)
        ensures { self.old.at < max_place → Added self.old (byte ∷ []) self.new }
    {
        lists::put(self.out, self.at, byte);
        self.at = self.at.saturating_add(1);
    }

    // Stores a number in decimal.
    pub fn put_number(&mut self, n: usize)
        ensures { self.old.at + 10 ≤ max_place → Added self.old (decimal n) self.new × (self.new.at ≤ self.old.at + 10) }
    {
        let mut digits = [0u8; 10];
        let from = digits_of(&mut digits, n);
        self.put(&digits[from..]);
    }
}
