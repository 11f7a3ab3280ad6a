// The laws of readings by a rule of stored names.
ghost use Rattle.pack_laws.specs.NameLaws.{OwnRule, OldPacks};

/// By the rule of stored names itself, the readings by a rule are the ones that stand: what a pack shows, what it is read as, and
/// whether it is sound.
pub fn own_rule()
    ensures { OwnRule }
{}

/// A pack that was sound by the rule of names without versions is sound, and is read as it was by that rule. A pack that wasn't
/// may be read otherwise: a leader's or an entry's name with a version couldn't be read then.
pub fn old_packs()
    ensures { OldPacks }
{}
