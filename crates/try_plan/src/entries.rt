// make_data_swizzle: a painted room, of which the first words are lent.
use net_memory::Given;
use rules::Refusal;
use try_kit::paint::{paint, painted};
use try_kit::tally::{Tally, add};

const ROOM: usize = 300;

// The call with a part of a room.
fn call(given: Given<'_>, sizes: &[u32], out: &mut [u32], lent: usize) -> Result<usize, Refusal> {
    let n = lent.min(out.len());
    swizzle_entries::make_data_swizzle(&mut out[0..n], given, sizes)
}

// A call's answer and the entries that the room holds after it; a refused call stores none.
pub(crate) fn made(
    t: Tally,
    given: Given<'_>,
    sizes: &[u32],
    lent: usize,
    want: Result<&[u32], Refusal>,
) -> Tally {
    let mut out = [0u32; ROOM];
    paint(&mut out);
    let r = call(given, sizes, &mut out, lent);
    let list = want.unwrap_or(&[]);
    let t = add(t, r == want.map(|_| list.len()));
    add(t, out.starts_with(list) && painted(&out, list.len()))
}
