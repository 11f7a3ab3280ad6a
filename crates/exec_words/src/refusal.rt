// The texts of refusals and of replies.
ghost use Rattle.std.specs.Prelude.{◌≡◌, ◌++◌, IfOk, OnOk};
ghost use Rattle.exec_words.specs.Texts.{place_text, found_text, page_text, hint_words, refusal_words, refusal_text, reply_text};

use crate::push::{push, push_spaced, push_with_number};
use crate::reply::{Refusal, Reply};
use crate::texts::done_text;
use alto_words::Memory;
use disk_records::{Page, Place};
use std::alloc::Global;

/// Appends where a hint word stands.
fn push_place(alloc: Global, out: &mut Vec<u8>, place: Place) -> Result<(), Memory>
    ensures { OnOk result (out.new.items ≡ out.old.items ++ place_text place) }
{
    match place {
        Place::Root => push(out, b"root"),
        Place::Entry { dir, word } => {
            push_with_number(alloc, out, b"entry #", dir.serial() as u64)?;
            push_with_number(alloc, out, b" word ", word as u64)
        }
        Place::Next { at } => push_with_number(alloc, out, b"next of ", at as u64),
        Place::Held { at } => push_with_number(alloc, out, b"held ", at as u64),
    }
}

/// Appends the page that a hint should name.
fn push_page(alloc: Global, out: &mut Vec<u8>, page: Page) -> Result<(), Memory>
    ensures { OnOk result (out.new.items ≡ out.old.items ++ page_text page) }
{
    push_with_number(alloc, out, b" wanted #", page.fid.serial() as u64)?;
    push_with_number(alloc, out, b" v ", page.fid.version as u64)?;
    push_with_number(alloc, out, b" page ", page.number as u64)
}

/// Appends the label that was found.
fn push_found(alloc: Global, out: &mut Vec<u8>, found: Option<[u16; 8]>) -> Result<(), Memory>
    ensures { OnOk result (out.new.items ≡ out.old.items ++ found_text found) }
{
    match found {
        Some(label) => push_spaced(alloc, out, &label),
        None => push(out, b" none"),
    }
}

/// Appends which hint failed, and how.
fn push_hint(
    alloc: Global,
    out: &mut Vec<u8>,
    place: Place,
    at: u16,
    wanted: Page,
    found: Option<[u16; 8]>,
) -> Result<(), Memory>
    ensures { OnOk result (out.new.items ≡ out.old.items ++ hint_words place at wanted found) }
{
    push(out, b"hint failed: ")?;
    push_place(alloc, out, place)?;
    push_with_number(alloc, out, b" at ", at as u64)?;
    push_page(alloc, out, wanted)?;
    push(out, b" found")?;
    push_found(alloc, out, found)
}

/// Appends the words of a refusal, with its numbers.
fn push_refusal(alloc: Global, out: &mut Vec<u8>, refusal: Refusal) -> Result<(), Memory>
    ensures { OnOk result (out.new.items ≡ out.old.items ++ refusal_words refusal) }
{
    match refusal {
        Refusal::BadLine => push(out, b"bad line"),
        Refusal::NeedsScavenge => push(out, b"needs scavenging"),
        Refusal::NoService { level } => push_with_number(alloc, out, b"needs level ", level as u64),
        Refusal::NoSuchName => push(out, b"no such name"),
        Refusal::NotADirectory => push(out, b"not a directory"),
        Refusal::IsADirectory => push(out, b"is a directory"),
        Refusal::SystemFile => push(out, b"system file"),
        Refusal::NameTaken => push(out, b"name taken"),
        Refusal::NotEmpty => push(out, b"not empty"),
        Refusal::Beyond { length } => push_with_number(
            alloc,
            out,
            b"beyond length ",
            length as u64,
        ),
        Refusal::NoStream => push(out, b"no stream"),
        Refusal::TooManyStreams => push(out, b"too many streams"),
        Refusal::StreamsOpen => push(out, b"streams open"),
        Refusal::NoRoom { largest } => push_with_number(
            alloc,
            out,
            b"no room: largest ",
            largest as u64,
        ),
        Refusal::NotABlock => push(out, b"not a block"),
        Refusal::InUse { at } => push_with_number(alloc, out, b"in use at ", at as u64),
        Refusal::NotAWorld { length } => push_with_number(
            alloc,
            out,
            b"not a world: length ",
            length as u64,
        ),
        Refusal::NotWhole { mark } => push_with_number(
            alloc,
            out,
            b"not whole: mark ",
            mark as u64,
        ),
        Refusal::Spoilt { word } => push_with_number(
            alloc,
            out,
            b"spoilt world: word ",
            word as u64,
        ),
        Refusal::SerialsSpent { last } => push_with_number(
            alloc,
            out,
            b"serials spent: last ",
            last as u64,
        ),
        Refusal::Full { needed, free } => {
            push_with_number(alloc, out, b"full: needed ", needed as u64)?;
            push_with_number(alloc, out, b" free ", free as u64)
        }
        Refusal::HintFailed {
            place,
            at,
            wanted,
            found,
        } => push_hint(alloc, out, place, at, wanted, found),
    }
}

/// The text of a refusal: one line.
fn refusal_text(alloc: Global, refusal: Refusal) -> Result<Vec<u8>, Memory>
    ensures { IfOk result (λ text. text.items ≡ refusal_text refusal) }
{
    let mut out = Vec::new(alloc);
    push_refusal(alloc, &mut out, refusal)?;
    push(&mut out, b"\n")?;
    Ok(out)
}

/// The text that is shown for a reply, lines that end with the byte 10: that of `Done`, the line of a refusal, and `done` for `Quit`.
/// No bytes for `Scavenge`, `DiskFault` and `Memory`.
pub fn reply_text(alloc: Global, reply: &Reply) -> Result<Vec<u8>, Memory>
    ensures { IfOk result (λ text. text.items ≡ reply_text reply.now) }
{
    match reply {
        Reply::Done { text } => Ok(Vec::from_slice(alloc, text.as_slice())?),
        Reply::Refused { refusal } => refusal_text(alloc, *refusal),
        Reply::Quit => done_text(alloc),
        Reply::Scavenge | Reply::DiskFault | Reply::Memory => Ok(Vec::new(alloc)),
    }
}
