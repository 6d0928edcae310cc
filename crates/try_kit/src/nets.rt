// Nets that are good below a next free net, and one that is not.
ghost use Rattle.std.specs.Prelude.{◌≡◌, ◌+◌, ◌-◌, ◌%◌, ◌<◌, min, max, length};
ghost use Rattle.rules.specs.Limits.{max_nets};
ghost use Rattle.rules.specs.Value.{first_cell};
ghost use Rattle.try_kit.specs.Nets.{net_at_of, nets_of, spoiled, select_of};

use net_value::{ControlNet, Net};
use rules::{FIRST_CELL, MAX_NETS, NET_X};

// The net below the next free net and the limit, which is a constant where there is no cell net.
fn last_net(next: u32) -> u32
    ensures { result ≡ min next max_nets - 1 }
{
    next.min(MAX_NETS).saturating_sub(1)
}

// The i-th cell net, or the last.
fn cell_net(last: u32, i: usize) -> u32
    ensures { result ≡ min last (2 + i % 8192) }
{
    last.min(2 + (i % 8192) as u32)
}

// A good net: the constants, the last net and other cell nets by turns.
pub fn net_at(next: u32, i: usize, turn: usize) -> u32
    ensures { result ≡ net_at_of next i turn }
{
    let last = last_net(next);
    let row = [0u32, 1, NET_X, last, cell_net(last, i)];
    row[(i % 5 + turn % 5) % 5]
}

// Nets that are good below a next free net.
pub fn fill_nets(s: &mut [u32], next: u32, turn: usize)
    ensures { s.new ≡ nets_of next turn (length s.old) }
{
    for (i, x) in s.iter_mut().enumerate() {
        *x = net_at(next, i, turn);
    }
}

// The lowest net that is not good.
fn bad_net(next: u32) -> u32
    ensures { result ≡ max next first_cell }
{
    next.max(FIRST_CELL)
}

// The last of n nets is bad.
pub fn spoil(s: &mut [u32], n: usize, next: u32)
    ensures { s.new ≡ spoiled s.old n next }
{
    if 0 < n {
        lists::put(s, n - 1, bad_net(next));
    }
}

// A select: Neg 2 or Pos 1.
pub fn select_of(neg: bool) -> ControlNet
    ensures { result ≡ select_of neg }
{
    if neg {
        return ControlNet::Neg(Net(2));
    }
    ControlNet::Pos(Net(1))
}
