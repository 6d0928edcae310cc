// The struct and the trits of unmap_read_init_reset_transparency: whether a port has something to unmap, and the port without it.
#![tactic(auto)]

ghost use Rattle.std.specs.Prelude.{◌≡◌, Bool, not, List, [], ℕ, ◌<◌, ◌≤◌};
ghost use Rattle.lists.specs.Choice.{when◌then◌else◌};
ghost use Rattle.rules.specs.Cell.{transparent_from};
ghost use Rattle.rules.specs.Ports.{is_empty, is_plain, no_transparent};
ghost use Rattle.net_flip_flop.specs.View.{controls_of};
ghost use Rattle.net_memory.specs.View.{clocked_by};
ghost use Rattle.port_unreset.specs.Struct.{kept_relations, unreset_port, unreset, blanked};

use net_flip_flop::Controls;
use net_memory::{Memory, MemoryPortRelation, MemoryReadPort, ReadPort};
use net_value::{ControlNet, Net};

// The relations that are to go.
pub fn wanted_relations(rels: &[u8], incl: bool) -> &[u8]
    ensures { result.now ≡ (when incl then rels.now else []) }
{
    if incl { rels } else { &[] }
}

// Some relation is Transparent.
#[tactic(auto, using(crate::proofs::Plain::any_is))]
fn any_transparent(rels: &[u8]) -> bool
    ensures { result ≡ not (is_empty (transparent_from 0 rels.now)) }
{
    let transparent = u8::from(MemoryPortRelation::Transparent);
    rels.contains(&transparent)
}

// There is nothing to unmap: no init, no reset, no clear, and no relation that is to go.
#[tactic(auto, using(crate::proofs::Plain::plain_is, crate::proofs::Plain::wanted_is))]
fn is_plain(c: Controls, init: &[u8], rels: &[u8], incl: bool) -> bool
    ensures { (clear reset : List ℕ) → result ≡ is_plain incl (record { controls = controls_of c; clear_value = clear; reset_value = reset; init_value = init.now; relations = rels.now }) }
{
    net_logic::is_undef(init)
        && net_value::is_always(c.reset, false)
        && net_value::is_always(c.clear, false)
        && !any_transparent(wanted_relations(rels, incl))
}

// There is nothing to unmap of this port, whose controls these are.
#[tactic(auto, using(crate::proofs::Plain::plain_as))]
pub fn port_plain(own: ReadPort<'_>, c: Controls, incl: bool) -> bool
    ensures { result ≡ is_plain incl (clocked_by c own.entry.port own.entry.trits.now) }
{
    is_plain(c, own.init(), own.relations(), incl)
}

// A relation's code without Transparent.
#[tactic(auto, unfolding(rules::specs::Ports::no_transparent, rules::specs::Cell::is_transparent))]
fn kept_relation(x: u8) -> u8
    ensures { result ≡ no_transparent x }
{
    if x == u8::from(MemoryPortRelation::Transparent) {
        return u8::from(MemoryPortRelation::Undefined);
    }
    x
}

// The codes of a port's relations without Transparent, where these are to go.
fn kept_relations(relations: [u8; rules::MAX_PORTS], incl: bool) -> [u8; rules::MAX_PORTS]
    ensures { result ≡ kept_relations incl relations }
{
    if incl {
        relations.map(kept_relation)
    } else {
        relations
    }
}

// A port without clear and reset, and without Transparent relations where these are to go.
fn unreset_port(p: MemoryReadPort, c: Controls, incl: bool) -> MemoryReadPort
    ensures { result ≡ unreset_port p c incl }
{
    let controls = Controls {
        clear: ControlNet::Pos(Net(0)),
        reset: ControlNet::Pos(Net(0)),
        ..c
    };
    MemoryReadPort {
        relations: kept_relations(p.relations, incl),
        flip_flop: Some(controls),
        ..p
    }
}

// The memory whose port i is so.
pub fn unreset(m: Memory, i: usize, c: Controls, incl: bool) -> Memory
    ensures { result ≡ unreset m i c incl }
{
    let mut out = m;
    if i < rules::MAX_PORTS {
        out.read_ports[i] = unreset_port(m.read_ports[i], c, incl);
    }
    out
}

// The trits of port i become X.
pub fn blank(trits: &mut [u8], m: Memory, i: usize)
    ensures { trits.new ≡ blanked m i trits.old }
{
    if rules::MAX_PORTS <= i {
        return;
    }
    let size = net_memory::trit_size(m.read_ports[i]);
    lists::fill(trits, net_memory::trit_start(&m, i), size, rules::TRIT_X);
}
