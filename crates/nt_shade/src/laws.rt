//! What shades tell of the histories whose shades they are.
ghost use Rattle.nt_shade.specs.Same.{EqualShadesSayTheSame, SameShadesAreAlike};

/// Histories whose shades say the same are alike in all that the script declares.
pub fn same_shades_are_alike()
    ensures { SameShadesAreAlike }
{}

/// Shades that are `==` say the same.
pub fn equal_shades_say_the_same()
    ensures { EqualShadesSayTheSame }
{}
