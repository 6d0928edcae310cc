// A sum over a whole array, for arrays that are too long to be written out in a case.
ghost use Rattle.std.specs.Prelude.{◌≡◌};
ghost use Rattle.try_kit.specs.Sums.{weighed};

// Every byte counts, and its place.
pub fn sum_of(bytes: &[u8]) -> u64
    ensures { result ≡ weighed 0 bytes.now }
{
    let mut sum: u64 = 0;
    for b in bytes {
        sum = (sum * 257 + *b as u64 + 1) % 4294967291;
    }
    sum
}
