//! What shades tell of the histories whose shades they are.
ghost use Rattle.nt_shade_dpcs.specs.Same.{SameShadesTellSameLanes};

/// Where two shades say the same, the histories have the same in these lanes but for numbers, and
/// set what is due at one time in the same order.
pub fn same_shades_tell_same_lanes()
    ensures { SameShadesTellSameLanes }
{}
