//! A line in two parts: the model after it, and its pages.

ghost use Rattle.laws_steps.specs.PartLaws.{PagesOfBothParts, StepsOfBothParts};

/// The model after all operations is that after the others, from the model after the first ones.
pub fn steps_of_both_parts()
    ensures { StepsOfBothParts }
{}

/// The pages that a line adds are those of its first operations, and those of the others on the model after these.
pub fn pages_of_both_parts()
    ensures { PagesOfBothParts }
{}
