// A memory of the oracle's stored calls, its arrays, and the log that the Rust makes of it.
use net_flip_flop::Controls;
use net_memory::Memory;
use net_value::{ControlNet, Net};
use try_kit::samples;

// The words that are logged, and the nets that the call takes.
pub const WORDS: usize = 63;

pub const NETS: u32 = 9;

// 2 rows of 1 bit; a write port of 2 bits and no address, a read port of 1 bit with a flip-flop and a Transparent relation.
pub(crate) fn memory() -> Memory {
    let f = Some(Controls {
        clock: ControlNet::Pos(Net(5)),
        clear: ControlNet::Pos(Net(0)),
        reset: ControlNet::Pos(Net(0)),
        enable: ControlNet::Pos(Net(1)),
        reset_over_enable: false,
    });
    let w = samples::write_by(0, 2, 2, ControlNet::Pos(Net(5)));
    let r = samples::read_by(1, 1, 1, 1, 1, 1, [2u8, 0, 0, 0, 0, 0, 0, 0], f);
    samples::memory(2, 1, 2, 1, w, 1, r)
}

// Its nets: the write port's data and mask, the read port's address.
pub(crate) fn nets() -> [u32; 5] {
    [20u32, 21, 40, 41, 60]
}

// Its trits: the initial ones, and clear, reset and init.
pub(crate) fn trits() -> [u8; 5] {
    [1u8, 0, 2, 2, 2]
}

// The log where the next free net is 200 and the outputs are net 80: void, two shifts, eq, select mux, data mux, flip-flop, replace.
pub(crate) fn log() -> [u32; WORDS] {
    [
        1u32, 1, 200, 0, 8, 2, 201, 5, 1, 1, 60, 20, 21, 8, 2, 203, 5, 1, 1, 60, 40, 41, 6, 1, 205,
        0, 5, 1, 206, 3, 205, 203, 0, 5, 1, 207, 3, 206, 201, 200, 9, 1, 208, 13, 207, 0, 5, 0, 0,
        0, 0, 0, 1, 0, 2, 2, 2, 10, 0, 0, 2, 80, 208,
    ]
}
