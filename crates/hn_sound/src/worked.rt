//! A home at rest, written out.

ghost use Rattle.hn_sound.specs.AtRest.{IsHomeAtRest};
ghost use Rattle.hn_sound.specs.Premises.{IsHome};
ghost use Rattle.hn_sound.specs.Sound.{IsSoundHome};
ghost use Rattle.hn_sound.specs.Worked.{worked, home_with, overlapping};
ghost use Rattle.hn_sound.specs.Written.{subnet};

/// Three routers on three links: each link has a prefix inside the first used prefix, one link has the only one inside
/// the second, and nobody wants the third.
pub fn worked_home_is_sound()
    ensures is_home { IsHome worked }
    ensures at_rest { IsHomeAtRest worked }
    ensures sound { IsSoundHome worked }
{}

/// The same home is not at rest where the prefix that is published on one link overlaps those of others, whether the
/// other endpoint of the link has the old prefix or the new one.
pub fn overlapping_home_is_not_at_rest()
    ensures old { ¬ IsHomeAtRest (home_with overlapping (subnet 1)) }
    ensures new { ¬ IsHomeAtRest (home_with overlapping overlapping) }
{}
