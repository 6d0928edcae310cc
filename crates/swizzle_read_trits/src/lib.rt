// The trits of a clocked read port of a swizzle: clear, reset and init of all memories, one after the other in lent room.
#![tactic(auto)]

ghost use Rattle.std.specs.Prelude.{◌≡◌, ◌+◌, ◌≤◌, leb, length};
ghost use Rattle.swizzle_read_trits.specs.Trits.{put_trits, three_trits};

use swizzle_columns::WidePort;

// Whether a room of this length holds so many from `at` on.
pub fn holds(room: usize, at: usize, need: usize) -> bool
    ensures { result ≡ leb (at + need) room }
{
    at <= room && need <= room - at
}

// The trits of one kind, from `at` on.
fn put_trits(to: &mut [u8], at: usize, size: usize, p: WidePort, entries: &[u32], v: &[u8])
    requires { at + size ≤ length to.old }
    ensures { to.new ≡ put_trits p entries.now v.now at size to.old }
{
    let end = at + size;
    swizzle_columns::trit_columns(&mut to[at..end], p, entries, v);
}

// The trits that a clear, a reset and the start give.
#[derive(Clone, Copy)]
pub struct Trits<'a> {
    pub clear: &'a [u8],
    pub reset: &'a [u8],
    pub init: &'a [u8],
}

impl Trits<'_> {
    // Clear, reset and init, from `at` on, each of `size` trits. Nothing is stored where the room does not hold them.
    pub fn put(self, to: &mut [u8], at: usize, size: u32, p: WidePort, entries: &[u32])
        ensures { to.new ≡ three_trits p entries.now self.entry.clear.now self.entry.reset.now self.entry.init.now at size to.old }
    {
        let n = size as usize;
        if !holds(to.len(), at, n + (n + n)) {
            return;
        }
        put_trits(to, at, n, p, entries, self.clear);
        put_trits(to, at + n, n, p, entries, self.reset);
        put_trits(to, at + (n + n), n, p, entries, self.init);
    }
}
