// The open streams of a session.
ghost use Rattle.exec_session.specs.Streams.{free_from, has_file_in};
ghost use Rattle.std.specs.List.{list_any};
ghost use Rattle.std.specs.Option.{is_some};
ghost use Rattle.std.specs.Prelude.{[], length, ◌<◌, ◌≡◌};

use alto_words::Fid;
use disk_stream::StreamState;
use std::marker::Model;
use std::mem;

/// How many streams can be open.
const MOST_STREAMS: usize = 8;

/// The open streams of a session in slots by their numbers, 0 to 7. Contracts see the list of those that are open, by rising number.
#[derive(Drop)]
pub struct OpenStreams {
    slots: [Option<StreamState>; MOST_STREAMS],
}

impl Model for OpenStreams {
    ghost use Rattle.exec_session.specs.Streams.{numbered};
    ghost use Rattle.session_model.specs.Keeping.{OpenFile};
    ghost use Rattle.session_model.specs.Refusals.{most_streams};
    ghost use Rattle.std.specs.Prelude.{List, length, ◌≡◌};

    ghost Value = { List OpenFile };

    ghost view = { λ s. numbered 0 s.slots };

    ghost invariant = { λ s. length s.slots ≡ most_streams };
}

/// Whether one of these slots has a stream of this file.
fn have_file(slots: &[Option<StreamState>], fid: Fid) -> bool
    ensures { result ≡ list_any (has_file_in fid) slots.now }
{
    for slot in slots {
        if let Some(state) = slot {
            if state.file.fid == fid {
                return true;
            }
        }
    }
    false
}

/// Whether one of these slots is taken.
fn have_any(slots: &[Option<StreamState>]) -> bool
    ensures { result ≡ list_any is_some slots.now }
{
    for slot in slots {
        if slot.is_some() {
            return true;
        }
    }
    false
}

/// The first of these slots that isn't taken.
fn first_free(slots: &[Option<StreamState>]) -> Option<u8>
    requires few { length slots.now < 256 }
    ensures { result ≡ free_from 0 slots.now }
{
    let mut number = 0;
    for slot in slots {
        if slot.is_none() {
            return Some(number);
        }
        number += 1;
    }
    None
}

impl OpenStreams {
    ghost use Rattle.alto_words.specs.Fid.{is_fid};
    ghost use Rattle.exec_session.specs.Streams.{open_file_at, is_open_at, open_file, with_file, without_file};
    ghost use Rattle.session_model.specs.Keeping.{stream_of};
    ghost use Rattle.session_model.specs.Refusals.{most_streams};
    ghost use Rattle.session_model.specs.Streams.{free_number};
    ghost use Rattle.std.specs.List.{list_any};
    ghost use Rattle.std.specs.Option.{option_map};
    ghost use Rattle.std.specs.Prelude.{IfNone, IfSome, None, [], length, map, nat_lt, ◌<◌, ◌≡◌, ◌≤◌};

    /// No stream is open.
    pub fn none() -> OpenStreams
        ensures { result ≡ [] }
    {
        OpenStreams {
            slots: [None, None, None, None, None, None, None, None],
        }
    }

    /// Whether any stream is open.
    pub fn has_any(&self) -> bool
        ensures { result ≡ nat_lt 0 (length self.now) }
    {
        have_any(&self.slots)
    }

    /// Whether the stream with this number, 0 to 7, is open.
    pub fn is_open(&self, number: u8) -> bool
        requires low { number < most_streams }
        ensures { result ≡ is_open_at number self.now }
    {
        self.slots[usize::from(number)].is_some()
    }

    /// Whether an open stream has this file.
    pub fn has_file(&self, fid: Fid) -> bool
        ensures { result ≡ list_any (λ s. is_fid s.fid fid) (map stream_of self.now) }
    {
        have_file(&self.slots, fid)
    }

    /// The lowest number that isn't open, 0 to 7: None if all are.
    pub fn lowest_free(&self) -> Option<u8>
        ensures free { IfSome result (λ n. (n < most_streams) × (n ≡ free_number 0 (map stream_of self.now))) }
        ensures full { IfNone result (most_streams ≤ length self.now) }
    {
        first_free(&self.slots)
    }

    /// Takes out the stream with this number, 0 to 7: None if it isn't open.
    pub fn take(&mut self, number: u8) -> Option<StreamState>
        requires low { number < most_streams }
        ensures taken { open_file_at number self.old ≡ option_map (open_file number) result }
        ensures left { self.new ≡ without_file number self.old }
    {
        mem::replace(&mut self.slots[usize::from(number)], None)
    }

    /// Puts a stream where none is open, under this number, 0 to 7.
    pub fn put(&mut self, number: u8, state: StreamState)
        requires low { number < most_streams }
        requires free { open_file_at number self.old ≡ None }
        ensures { self.new ≡ with_file (open_file number state) self.old }
    {
        self.slots[usize::from(number)] = Some(state);
    }
}

/// The open streams of a session. None is open yet, since no line opens one.
#[derive(Drop)]
pub struct SessionStreams {
    /// Their slots.
    pub slots: OpenStreams,
    ghost unopened: { slots ≡ [] },
}

impl SessionStreams {
    /// No stream is open.
    pub fn none() -> SessionStreams
        ensures { result.slots ≡ [] }
    {
        SessionStreams {
            slots: OpenStreams::none(),
        }
    }
}
