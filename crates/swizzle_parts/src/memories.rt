// A struct of memories whose numbers are within the limits of a swizzle.

ghost use Rattle.swizzle_parts.specs.Parts.{Small};

use swizzle_result::WideMemory;

#[derive(Clone, Copy)]
pub struct Memories {
    pub g: WideMemory,
    ghost small: { Small g },
}
