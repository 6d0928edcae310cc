// extract_read_ports: rooms that are painted, and of which the first words are lent.
use crate::case::{Case, NETS, OUTS, TRITS};
use crate::{room, same};
use net_memory::{Given, Memory};
use rules::Refusal;
use try_kit::paint::paint;
use try_kit::tally::{Tally, add};

// How many places of each room are lent.
#[derive(Clone, Copy)]
pub(crate) struct Rooms {
    pub(crate) nets: usize,
    pub(crate) trits: usize,
    pub(crate) outs: usize,
}

pub(crate) fn lend(nets: usize, trits: usize, outs: usize) -> Rooms {
    Rooms { nets, trits, outs }
}

// The call with parts of three rooms.
fn call(
    c: Case,
    list: &[u32],
    lent: Rooms,
    room_nets: &mut [u32],
    room_trits: &mut [u8],
    room_outs: &mut [u32],
) -> Result<Memory, Refusal> {
    let nets = c.lent_nets();
    let trits = c.lent_trits();
    let outs = c.lent_outs();
    let a = lent.nets.min(room_nets.len());
    let b = lent.trits.min(room_trits.len());
    let e = lent.outs.min(room_outs.len());
    let given = Given {
        memory: c.m,
        nets: lists::part(&nets, 0, c.nets),
        trits: lists::part(&trits, 0, c.trits),
    };
    port_extract::extract_read_ports(
        &mut room_nets[0..a],
        &mut room_trits[0..b],
        &mut room_outs[0..e],
        given,
        list,
        lists::part(&outs, 0, c.outs),
    )
}

// How a call is refused, the memory after it, and the parts of the patterns that the rooms hold then.
pub(crate) fn extracted(
    t: Tally,
    c: Case,
    list: &[u32],
    lent: Rooms,
    refusal: Option<Refusal>,
    after: Memory,
    nets: &[(usize, usize)],
    trits: &[(usize, usize)],
    outs: &[(usize, usize)],
) -> Tally {
    let mut room_nets = [0u32; NETS];
    let mut room_trits = [0u8; TRITS];
    let mut room_outs = [0u32; OUTS];
    paint(&mut room_nets);
    paint(&mut room_trits);
    paint(&mut room_outs);
    let r = call(
        c,
        list,
        lent,
        &mut room_nets,
        &mut room_trits,
        &mut room_outs,
    );
    let t = add(t, r.err() == refusal);
    let t = add(t, same::same_memory(r.unwrap_or(c.m), after));
    let t = add(t, room::is_parts(&room_nets, room::NET_WORDS, nets));
    let t = add(t, room::is_parts(&room_trits, room::Trits, trits));
    add(t, room::is_parts(&room_outs, room::OUT_WORDS, outs))
}

// A refused call leaves the rooms and the memory as they are.
pub(crate) fn refused(t: Tally, c: Case, list: &[u32], lent: Rooms, refusal: Refusal) -> Tally {
    let none: [(usize, usize); 0] = [];
    let m = c.m;
    extracted(t, c, list, lent, Some(refusal), m, &none, &none, &none)
}
