// A layout, and a split by it, within the limits.

ghost use Rattle.std.specs.Prelude.{◌≤◌};
ghost use Rattle.rules.specs.Limits.{max_wide};
ghost use Rattle.image_geometry.specs.View.{layout_of};
ghost use Rattle.swizzle_reads.specs.Able.{Measures};

use crate::Sizes;
use image_geometry::Layout;
use swizzle_split::Split;

// A layout that an accepted swizzle has, with its memories and columns.
#[derive(Clone, Copy)]
pub struct Rows<'a> {
    pub layout: Layout<'a>,
    pub sizes: Sizes,
    ghost measures: { Measures (layout_of layout) sizes },
}

// The split of a port by the layout.
#[derive(Clone, Copy)]
pub struct Cut<'a> {
    pub rows: Rows<'a>,
    pub split: Split,
    ghost old_low: { split.old ≤ max_wide },
    ghost new_low: { split.new ≤ max_wide },
}
