// The exported functions of `parts` of c_swizzle. Made by scripts/exports.py.
ghost use Rattle.std.specs.Prelude.{◌≡◌, List, ℕ, get_or};
ghost use Rattle.lists.specs.Lists.{part};
ghost use Rattle.rules.specs.Cell.{write_at, read_at_of, output_slice};
ghost use Rattle.swizzle_parts.specs.Parts.{memory_at, clear_at, reset_at, init_at};
ghost use Rattle.c_swizzle.specs.View.{given_wide};

use c_swizzle::WideMemory;
use swizzle_parts::Part;

#[unsafe(no_mangle)]
pub extern "C" fn tablegoose_swizzled_depth(g: WideMemory, n: usize) -> u32
    ensures { (nets trits image : List ℕ) → result ≡ (memory_at (given_wide g) nets trits image n).memory.depth }
{
    c_swizzle::parts::tablegoose_swizzled_depth(g, n)
}

#[unsafe(no_mangle)]
pub extern "C" fn tablegoose_swizzled_image(g: WideMemory, n: usize) -> Part
    ensures { (nets trits image : List ℕ) → part result.start result.size image ≡ (memory_at (given_wide g) nets trits image n).memory.init }
{
    c_swizzle::parts::tablegoose_swizzled_image(g, n)
}

#[unsafe(no_mangle)]
pub extern "C" fn tablegoose_swizzled_write_addr(g: WideMemory, n: usize, j: usize) -> Part
    ensures { (nets trits image : List ℕ) → part result.start result.size nets ≡ (write_at (memory_at (given_wide g) nets trits image n).memory j).addr }
{
    c_swizzle::parts::tablegoose_swizzled_write_addr(g, n, j)
}

#[unsafe(no_mangle)]
pub extern "C" fn tablegoose_swizzled_write_data(g: WideMemory, n: usize, j: usize) -> Part
    ensures { (nets trits image : List ℕ) → part result.start result.size nets ≡ (write_at (memory_at (given_wide g) nets trits image n).memory j).bits }
{
    c_swizzle::parts::tablegoose_swizzled_write_data(g, n, j)
}

#[unsafe(no_mangle)]
pub extern "C" fn tablegoose_swizzled_write_mask(g: WideMemory, n: usize, j: usize) -> Part
    ensures { (nets trits image : List ℕ) → part result.start result.size nets ≡ (write_at (memory_at (given_wide g) nets trits image n).memory j).mask }
{
    c_swizzle::parts::tablegoose_swizzled_write_mask(g, n, j)
}

#[unsafe(no_mangle)]
pub extern "C" fn tablegoose_swizzled_read_addr(g: WideMemory, n: usize, i: usize) -> Part
    ensures { (nets trits image : List ℕ) → part result.start result.size nets ≡ (read_at_of (memory_at (given_wide g) nets trits image n).memory i).addr }
{
    c_swizzle::parts::tablegoose_swizzled_read_addr(g, n, i)
}

#[unsafe(no_mangle)]
pub extern "C" fn tablegoose_swizzled_clear(g: WideMemory, n: usize, i: usize) -> Part
    ensures { (nets trits image : List ℕ) → part result.start result.size trits ≡ clear_at (memory_at (given_wide g) nets trits image n).memory i }
{
    c_swizzle::parts::tablegoose_swizzled_clear(g, n, i)
}

#[unsafe(no_mangle)]
pub extern "C" fn tablegoose_swizzled_reset(g: WideMemory, n: usize, i: usize) -> Part
    ensures { (nets trits image : List ℕ) → part result.start result.size trits ≡ reset_at (memory_at (given_wide g) nets trits image n).memory i }
{
    c_swizzle::parts::tablegoose_swizzled_reset(g, n, i)
}

#[unsafe(no_mangle)]
pub extern "C" fn tablegoose_swizzled_init(g: WideMemory, n: usize, i: usize) -> Part
    ensures { (nets trits image : List ℕ) → part result.start result.size trits ≡ init_at (memory_at (given_wide g) nets trits image n).memory i }
{
    c_swizzle::parts::tablegoose_swizzled_init(g, n, i)
}

#[unsafe(no_mangle)]
pub extern "C" fn tablegoose_swizzled_output(g: WideMemory, n: usize, i: usize, bit: usize) -> u32
    ensures { (nets trits image : List ℕ) → result ≡ get_or (output_slice (memory_at (given_wide g) nets trits image n).memory i (memory_at (given_wide g) nets trits image n).output) bit 0 }
{
    c_swizzle::parts::tablegoose_swizzled_output(g, n, i, bit)
}
