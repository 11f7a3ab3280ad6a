//! Hints for a new file, once it is made.

ghost use Rattle.laws_midway.specs.MadeLaws.{HandyAfterMake};

/// On a whole and tidy pack a new file's hints are handy once it is made, if the cache lists its pages at their sectors.
pub fn handy_after_make()
    ensures { HandyAfterMake }
{}
