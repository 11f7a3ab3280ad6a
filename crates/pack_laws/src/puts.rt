// The law of a put.
ghost use Rattle.pack_laws.specs.PutLaws.{ValueWriteIsThePut};

/// A value write that puts bytes below 256 in place within one page of a file, and within its length, makes that put of the living files:
/// this file's bytes from the offset on are new, all else of them is as before.
pub fn value_write_is_the_put()
    ensures { ValueWriteIsThePut }
{}
