// A memory with what it is lent: nets that are 5 and trits that are 1, as many as it says, with one of each put in another's place.
use net_memory::{Given, Memory};

// Places for nets and trits.
const NETS: usize = 600;

const TRITS: usize = 34900;

// (try_extract's case has outputs, rooms and contents of its own: one struct for both would need a contract for each constructor.)
// How many nets and trits are lent, and the net and the trit that are put at a place, if it is there. (No `Option`: a place past what is lent
// spoils nothing, and cases try such places.)
#[derive(Clone, Copy)]
pub(crate) struct Case {
    pub(crate) m: Memory,
    pub(crate) nets: usize,
    pub(crate) trits: usize,
    pub(crate) net_at: usize,
    pub(crate) net: u32,
    pub(crate) trit_at: usize,
    pub(crate) trit: u8,
}

// The arrays that a case lends.
#[derive(Drop)]
pub(crate) struct Lent {
    nets: [u32; NETS],
    trits: [u8; TRITS],
}

// The memory with as much as it says.
pub(crate) fn of(m: Memory) -> Case {
    Case {
        m,
        nets: net_memory::nets_total(&m),
        trits: net_memory::trits_total(&m),
        net_at: NETS,
        net: 0,
        trit_at: TRITS,
        trit: 0,
    }
}

impl Case {
    pub(crate) fn with_net(self, at: usize, net: u32) -> Case {
        Case {
            net_at: at,
            net,
            ..self
        }
    }

    pub(crate) fn with_trit(self, at: usize, trit: u8) -> Case {
        Case {
            trit_at: at,
            trit,
            ..self
        }
    }

    pub(crate) fn with_lens(self, nets: usize, trits: usize) -> Case {
        Case {
            nets,
            trits,
            ..self
        }
    }

    pub(crate) fn lent(self) -> Lent {
        let mut nets = [5u32; NETS];
        let mut trits = [1u8; TRITS];
        lists::put(&mut nets, self.net_at, self.net);
        lists::put(&mut trits, self.trit_at, self.trit);
        Lent { nets, trits }
    }

    // What the calls are given of it.
    pub(crate) fn given(self, lent: &Lent) -> Given<'_> {
        Given {
            memory: self.m,
            nets: lists::part(&lent.nets, 0, self.nets),
            trits: lists::part(&lent.trits, 0, self.trits),
        }
    }
}
