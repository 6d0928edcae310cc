// One entry of a row: its trit put into an image, or taken out of one. What lies past the end of a lent array is not stored.
ghost use Rattle.std.specs.Prelude.{◌≡◌, eqb, get_or};
ghost use Rattle.rules.specs.Limits.{None, trit_x};
ghost use Rattle.rules.specs.Image.{put};

// Stores an entry's trit. An entry of None stores nothing.
#[tactic(auto, unfolding(rules::specs::Image::put))]
fn store(to: &mut [u8], at: usize, trit: u8, entry: u32)
    ensures { to.new ≡ put (eqb entry None) at trit to.old }
{
    if entry != rules::NO_BIT {
        lists::put(to, at, trit);
    }
}

// The trit of the entry's bit goes to index `at` of the image.
pub fn put_trit(image: &mut [u8], at: u64, trits: &[u8], entry: u32)
    ensures { image.new ≡ put (eqb entry None) at (get_or trits.now entry 0) image.old }
{
    let trit = trits.get(entry as usize).copied().unwrap_or(0);
    store(image, at as usize, trit, entry);
}

// The trit at index `at` of the image goes to the entry's bit.
pub fn take_trit(room: &mut [u8], entry: u32, image: &[u8], at: u64)
    ensures { room.new ≡ put (eqb entry None) entry (get_or image.now at trit_x) room.old }
{
    let trit = image.get(at as usize).copied().unwrap_or(rules::TRIT_X);
    store(room, entry as usize, trit, entry);
}
