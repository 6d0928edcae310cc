// What is lent to a call: nets 2, 3, 4 .., trits 0, 1, 2, 0 .. and outputs 5000, 5001 .., as many as the memory says, with one net, one trit or one
// output put in another's place.
use crate::room;
use net_memory::Memory;

// Places for nets, trits and outputs.
pub(crate) const NETS: usize = 200;

pub(crate) const TRITS: usize = 200;

pub(crate) const OUTS: usize = 200;

// A memory, how many nets, trits and outputs are lent with it, and the element that is put in another's place, if there is one at that place. (No
// `Option`: a place past what is lent spoils nothing, and cases try such places.)
#[derive(Clone, Copy)]
pub(crate) struct Case {
    pub(crate) m: Memory,
    pub(crate) nets: usize,
    pub(crate) trits: usize,
    pub(crate) outs: usize,
    pub(crate) net_at: usize,
    pub(crate) net: u32,
    pub(crate) trit_at: usize,
    pub(crate) trit: u8,
    pub(crate) out_at: usize,
    pub(crate) out: u32,
}

// The memory with as much as it says.
pub(crate) fn of(m: Memory) -> Case {
    Case {
        m,
        nets: net_memory::nets_total(&m),
        trits: net_memory::trits_total(&m),
        outs: net_memory::output_start(&m, 8),
        net_at: NETS,
        net: 0,
        trit_at: TRITS,
        trit: 0,
        out_at: OUTS,
        out: 0,
    }
}

impl Case {
    pub(crate) fn with_net(self, at: usize, net: u32) -> Case {
        Case {
            net_at: at,
            net,
            ..self
        }
    }

    pub(crate) fn with_trit(self, at: usize, trit: u8) -> Case {
        Case {
            trit_at: at,
            trit,
            ..self
        }
    }

    pub(crate) fn with_out(self, at: usize, out: u32) -> Case {
        Case {
            out_at: at,
            out,
            ..self
        }
    }

    pub(crate) fn with_lens(self, nets: usize, trits: usize, outs: usize) -> Case {
        Case {
            nets,
            trits,
            outs,
            ..self
        }
    }

    pub(crate) fn lent_nets(self) -> [u32; NETS] {
        let mut lent = [0u32; NETS];
        room::fill(&mut lent, room::NET_WORDS);
        lists::put(&mut lent, self.net_at, self.net);
        lent
    }

    pub(crate) fn lent_trits(self) -> [u8; TRITS] {
        let mut lent = [0u8; TRITS];
        room::fill(&mut lent, room::Trits);
        lists::put(&mut lent, self.trit_at, self.trit);
        lent
    }

    pub(crate) fn lent_outs(self) -> [u32; OUTS] {
        let mut lent = [0u32; OUTS];
        room::fill(&mut lent, room::OUT_WORDS);
        lists::put(&mut lent, self.out_at, self.out);
        lent
    }
}
