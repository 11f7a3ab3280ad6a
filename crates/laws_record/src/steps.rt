//! The laws of record writes that are operations, on any pack: what is read afterwards is the step.

ghost use Rattle.laws_record.specs.StepLaws.{PutIsTheStep, CutIsTheStep, GrowIsTheStep, TitleIsTheStep, StampIsTheStep, WidenIsTheStep, LeaveIsTheStep, MakeIsTheStep, DropIsTheStep};

/// A value with bytes in their place, within a page and within the length of an ordinary file, is the put.
pub fn put_is_the_step()
    ensures { PutIsTheStep }
{}

/// A label that makes a page of an ordinary file its last one, with no more bytes than it has there, is the cut.
pub fn cut_is_the_step()
    ensures { CutIsTheStep }
{}

/// A label that counts no fewer bytes of the last page of an ordinary file is the growth by its new bytes and those of the pages claimed
/// after it.
pub fn grow_is_the_step()
    ensures { GrowIsTheStep }
{}

/// A leader's value with another name, of any file but DiskDescriptor, gives it this title.
pub fn title_is_the_step()
    ensures { TitleIsTheStep }
{}

/// A leader's value with another written date, of any file but DiskDescriptor, stamps it.
pub fn stamp_is_the_step()
    ensures { StampIsTheStep }
{}

/// A label after which the words of a directory, whose slots reached its end, have one free slot of 256 words more widens it.
pub fn widen_is_the_step()
    ensures { WidenIsTheStep }
{}

/// On a tidy pack, a directory's value that frees an entry's slot makes it leave.
pub fn leave_is_the_step()
    ensures { LeaveIsTheStep }
{}

/// On any pack the label of a new leader on a free sector makes the file, other than DiskDescriptor, if its serial is the last one, its
/// first page is claimed and no entry names it.
pub fn make_is_the_step()
    ensures { MakeIsTheStep }
{}

/// On a tidy pack, a free label in the place of the only leader of a file other than DiskDescriptor drops it: the file is gone, and its
/// entry is free.
pub fn drop_is_the_step()
    ensures { DropIsTheStep }
{}
