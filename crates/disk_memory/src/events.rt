// Lists of events.
ghost use Rattle.std.specs.Prelude.{◌≡◌, ◌+◌, ◌≤◌, [], ◌∷◌, ◌++◌, length, OnOk};
ghost use Rattle.std.specs.Vec.{vec_len, vec_capacity};
ghost use Rattle.disk_records.specs.Events.{next_write, shown_bytes, shown_events, writes_in};

use crate::block::push_ready;
use disk_records::Event;
use std::alloc::AllocError;

/// The number of record writes that an event is: 0 or 1.
pub fn writes_of_event(event: &Event) -> u64
    ensures { result ≡ writes_in (event.now ∷ []) }
{
    match event {
        Event::Wrote { .. } => 1,
        Event::Shown { .. } => 0,
    }
}

/// The sector and the record that an event writes, if it writes one.
pub fn written_by(event: &Event) -> Option<(u16, u8)>
    ensures { result ≡ next_write (event.now ∷ []) 0 }
{
    match event {
        Event::Wrote { at, part, .. } => Some((*at, *part)),
        Event::Shown { .. } => None,
    }
}

/// Puts the byte that an event shows, if it shows one, after the others.
pub fn add_shown_byte(bytes: &mut Vec<u8>, event: &Event) -> Result<(), AllocError>
    ensures { OnOk result (bytes.new.items ≡ bytes.old.items ++ shown_bytes (event.now ∷ [])) }
{
    match event {
        Event::Shown { byte } => {
            bytes.push(*byte)?;
            Ok(())
        }
        Event::Wrote { .. } => Ok(()),
    }
}

/// Puts these bytes after the events as shown, where there is room for them.
pub fn push_shown(events: &mut Vec<Event>, bytes: &[u8])
    requires { vec_len events.old + length bytes.now ≤ vec_capacity events.old }
    ensures items { events.new.items ≡ events.old.items ++ shown_events bytes.now }
    ensures len { vec_len events.new ≡ vec_len events.old + length bytes.now }
    ensures capacity { vec_capacity events.old ≤ vec_capacity events.new }
{
    for byte in bytes {
        push_ready(events, Event::Shown { byte: *byte });
    }
}
