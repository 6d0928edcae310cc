// What a swizzle gave, memory by memory, for callers in C and Rust: where a memory's part of the lent arrays stands, and its output nets.
ghost use Rattle.std.specs.Prelude.{◌≡◌, List, ℕ, get_or};
ghost use Rattle.lists.specs.Lists.{part};
ghost use Rattle.rules.specs.Cell.{write_at, read_at_of, output_slice};
ghost use Rattle.swizzle_parts.specs.Parts.{memory_at, clear_at, reset_at, init_at};
ghost use Rattle.c_swizzle.specs.View.{given_wide};

use crate::WideMemory;
use swizzle_parts::Part;

// The depth of memory n; 0 where there is none.
pub fn tablegoose_swizzled_depth(g: WideMemory, n: usize) -> u32
    ensures { (nets trits image : List ℕ) → result ≡ (memory_at (given_wide g) nets trits image n).memory.depth }
{
    swizzle_parts::depth_of(g.into(), n)
}

// Its part of the image.
pub fn tablegoose_swizzled_image(g: WideMemory, n: usize) -> Part
    ensures { (nets trits image : List ℕ) → part result.start result.size image ≡ (memory_at (given_wide g) nets trits image n).memory.init }
{
    swizzle_parts::image_part(g.into(), n)
}

// ---- parts of the nets

pub fn tablegoose_swizzled_write_addr(g: WideMemory, n: usize, j: usize) -> Part
    ensures { (nets trits image : List ℕ) → part result.start result.size nets ≡ (write_at (memory_at (given_wide g) nets trits image n).memory j).addr }
{
    swizzle_parts::write_addr_part(g.into(), n, j)
}

pub fn tablegoose_swizzled_write_data(g: WideMemory, n: usize, j: usize) -> Part
    ensures { (nets trits image : List ℕ) → part result.start result.size nets ≡ (write_at (memory_at (given_wide g) nets trits image n).memory j).bits }
{
    swizzle_parts::write_data_part(g.into(), n, j)
}

pub fn tablegoose_swizzled_write_mask(g: WideMemory, n: usize, j: usize) -> Part
    ensures { (nets trits image : List ℕ) → part result.start result.size nets ≡ (write_at (memory_at (given_wide g) nets trits image n).memory j).mask }
{
    swizzle_parts::write_mask_part(g.into(), n, j)
}

pub fn tablegoose_swizzled_read_addr(g: WideMemory, n: usize, i: usize) -> Part
    ensures { (nets trits image : List ℕ) → part result.start result.size nets ≡ (read_at_of (memory_at (given_wide g) nets trits image n).memory i).addr }
{
    swizzle_parts::read_addr_part(g.into(), n, i)
}

// ---- parts of the trits; none where the port has no flip-flop

pub fn tablegoose_swizzled_clear(g: WideMemory, n: usize, i: usize) -> Part
    ensures { (nets trits image : List ℕ) → part result.start result.size trits ≡ clear_at (memory_at (given_wide g) nets trits image n).memory i }
{
    swizzle_parts::clear_part(g.into(), n, i)
}

pub fn tablegoose_swizzled_reset(g: WideMemory, n: usize, i: usize) -> Part
    ensures { (nets trits image : List ℕ) → part result.start result.size trits ≡ reset_at (memory_at (given_wide g) nets trits image n).memory i }
{
    swizzle_parts::reset_part(g.into(), n, i)
}

pub fn tablegoose_swizzled_init(g: WideMemory, n: usize, i: usize) -> Part
    ensures { (nets trits image : List ℕ) → part result.start result.size trits ≡ init_at (memory_at (given_wide g) nets trits image n).memory i }
{
    swizzle_parts::init_part(g.into(), n, i)
}

// ---- the outputs

// The output net of a bit of read port i of memory n; 0 where there is none.
pub fn tablegoose_swizzled_output(g: WideMemory, n: usize, i: usize, bit: usize) -> u32
    ensures { (nets trits image : List ℕ) → result ≡ get_or (output_slice (memory_at (given_wide g) nets trits image n).memory i (memory_at (given_wide g) nets trits image n).output) bit 0 }
{
    swizzle_parts::output_of(g.into(), n, i, bit)
}
