// Trits and their two bits, known and value, eight trits to a byte, lowest bit first.
#![tactic(auto)]

ghost use Rattle.std.specs.Prelude.{◌≡◌, ◌++◌, map, ◌%◌, ◌≤◌, length, take, drop, get_or};
ghost use Rattle.std.proofs.lemmas.List.Edits.{sets};
ghost use Rattle.rules.specs.Value.{from_uint};
ghost use Rattle.rules.specs.Record.{byte_of, pack_bits, array_bytes, known_bit, value_bit, trit_by};
ghost use Rattle.record_bits.specs.Groups.{group_trits, bad_pair, bad_group};

// ---- one trit

#[tactic(auto, unfolding(rules::specs::Record::known_bit))]
pub fn known_bit(t: u8) -> u8
    ensures { result ≡ known_bit t }
{
    u8::from(t != rules::TRIT_X)
}

#[tactic(auto, unfolding(rules::specs::Record::value_bit))]
pub fn value_bit(t: u8) -> u8
    ensures { result ≡ value_bit t }
{
    u8::from(t == 1)
}

#[tactic(auto, unfolding(rules::specs::Record::trit_by))]
pub fn trit_by(known: u8, value: u8) -> u8
    ensures { result ≡ trit_by known value }
{
    if known == 0 { rules::TRIT_X } else { value }
}

// The bit of that number, 0 past the last.
#[tactic(auto, using(crate::proofs::Groups::bit_of, crate::proofs::Groups::bit_past))]
pub fn bit_at(byte: u8, i: usize) -> u8
    ensures { result ≡ get_or (from_uint 8 byte) i 0 }
{
    if i < 8 { (byte >> i) % 2 } else { 0 }
}

// ---- eight trits

// The lowest known bit and value bit are in error: of a trit, or where both are spare.
fn is_bad_pair(spare: bool, known: u8, value: u8) -> bool
    ensures { result ≡ bad_pair spare (known % 2) (value % 2) }
{
    let known = known % 2;
    let value = value % 2;
    if spare {
        known == 1 || value == 1
    } else {
        known < value
    }
}

// The known bits and the value bits of up to eight trits.
#[derive(Clone, Copy, Debug, PartialEq, Eq)]
pub struct Group {
    pub known: u8,
    pub value: u8,
}

impl Group {
    // Those of no more than eight trits.
    fn of(ts: &[u8]) -> Group
        requires { length ts.now ≤ 8 }
        ensures { (result.known ≡ byte_of (map known_bit ts.now)) × (result.value ≡ byte_of (map value_bit ts.now)) }
    {
        let mut known: u8 = 0;
        let mut value: u8 = 0;
        for t in ts.iter().rev() {
            known = known_bit(*t) + 2 * known;
            value = value_bit(*t) + 2 * value;
        }
        Group { known, value }
    }

    // Those of the eight trits from a place on, or of as many as are there.
    pub fn pack(ts: &[u8], at: usize) -> Group
        ensures { (result.known ≡ byte_of (map known_bit (take 8 (drop at ts.now)))) × (result.value ≡ byte_of (map value_bit (take 8 (drop at ts.now)))) }
    {
        let group = lists::part(ts, at, 8);
        // of eight trits the compiler knows the turns, and writes them out
        if group.len() == 8 {
            Group::of(&group[..8])
        } else {
            Group::of(group)
        }
    }

    // Stores their trits from a place on, as many as are left up to eight.
    fn spread_left(self, image: &mut [u8], at: usize, count: usize)
        ensures { image.new ≡ sets image.old at (group_trits count self.known self.value) }
    {
        if image.len() <= at {
            return;
        }
        let mut known = self.known;
        let mut value = self.value;
        for i in 0..count.min(8) {
            lists::put(image, at + i, trit_by(known % 2, value % 2));
            known /= 2;
            value /= 2;
        }
    }

    // The same.
    #[tactic(auto, using(crate::proofs::Groups::group_whole))]
    pub fn spread(self, image: &mut [u8], at: usize, count: usize)
        ensures { image.new ≡ sets image.old at (group_trits count self.known self.value) }
    {
        // of eight trits the compiler knows the turns, and writes them out
        if count < 8 {
            self.spread_left(image, at, count)
        } else {
            self.spread_left(image, at, 8)
        }
    }

    // A value bit without its known bit, or a spare bit set, where count trits are left.
    pub fn is_bad(self, count: usize) -> bool
        ensures { result ≡ bad_group count self.known self.value }
    {
        let mut known = self.known;
        let mut value = self.value;
        for i in 0..8 {
            if is_bad_pair(count <= i, known, value) {
                return true;
            }
            known /= 2;
            value /= 2;
        }
        false
    }
}

// Stores the known bits of trits and then their value bits, from a place on.
pub fn put_arrays(out: &mut [u8], at: usize, ts: &[u8])
    ensures { out.new ≡ sets out.old at (pack_bits (array_bytes (length ts.now)) (map known_bit ts.now) ++ pack_bits (array_bytes (length ts.now)) (map value_bit ts.now)) }
{
    if out.len() <= at {
        return;
    }
    let n = ts.len().div_ceil(8);
    // by number: a group's two bytes go to at + j and at + n + j, so by `chunks(8).enumerate()` the two sums stand here too
    for j in 0..n {
        let group = Group::pack(ts, 8 * j);
        lists::put(out, at + j, group.known);
        lists::put(out, at + n + j, group.value);
    }
}
