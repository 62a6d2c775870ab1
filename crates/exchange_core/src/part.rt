//! The notes of all desks of one side stand in one row. Each desk has a part of this row, where its waiting notes
//! stand.
ghost use Rattle.std.specs.Prelude.{◌≡◌, ◌+◌, ◌*◌, ◌^◌, ◌<◌, ◌≤◌, length, slice_get, slice_set};
ghost use Rattle.exchange_core.specs.Left.{room_within};
ghost use Rattle.exchange_core.specs.Notes.{IsRing, place_in, opened, pushed, popped, waiting_in};

use crate::event::Capacity;
use match_model::MAX_PAIRS;

/// One desk's part of the row of notes: a ring of `room` entries from `start`. The part says where its front note
/// stands and how many notes wait.
#[derive(Clone, Copy)]
pub(crate) struct Part {
    pub(crate) start: usize,
    pub(crate) room: u32,
    pub(crate) front: u32,
    pub(crate) len: u32,
}

impl Part {
    /// An empty part with `room` entries from `start`.
    pub(crate) fn open(start: usize, room: u32) -> Part
        ensures { result ≡ opened start room }
    {
        Part {
            start,
            room,
            front: 0,
            len: 0,
        }
    }

    /// The place in the row of the note with this number. The front note has number 0.
    #[inline(always)]
    fn place(self, number: u32) -> usize
        requires ring { IsRing self }
        requires number { number < self.room }
        requires small { self.start + self.room < 2 ^ 64 }
        ensures { result ≡ place_in self number }
    {
        let room = self.room as usize;
        let from_start = self.front as usize + number as usize;
        if from_start < room {
            return self.start + from_start;
        }
        self.start + (from_start - room)
    }

    /// The front note, or none if no note waits.
    #[inline(always)]
    pub(crate) fn first(self, notes: &Vec<u32>) -> Option<u32>
        requires ring { IsRing self }
        requires within { self.start + self.room ≤ length notes.now.items }
        ensures { result ≡ slice_get (waiting_in notes.now.items self) 0 }
    {
        if self.len == 0 {
            return None;
        }
        Some(notes[self.place(0)])
    }

    /// Appends a note behind the waiting notes of this part.
    #[inline(always)]
    pub(crate) fn push(&mut self, notes: &mut Vec<u32>, note: u32)
        requires ring { IsRing self.old }
        requires within { self.old.start + self.old.room ≤ length notes.old.items }
        requires room { self.old.len < self.old.room }
        ensures part { self.new ≡ pushed self.old }
        ensures notes { notes.new.items
            ≡ slice_set notes.old.items (place_in self.old self.old.len) note }
    {
        let place = self.place(self.len);
        notes[place] = note;
        self.len += 1;
    }

    /// Drops the front note of this part, if a note waits.
    #[inline(always)]
    pub(crate) fn pop(&mut self)
        requires { IsRing self.old }
        ensures { self.new ≡ popped self.old }
    {
        if self.len == 0 {
            return;
        }
        let entries_from_front = self.room - self.front;
        self.front = if entries_from_front > 1 {
            self.front + 1
        } else {
            1 - entries_from_front
        };
        self.len -= 1;
    }
}

/// How many messages a mailbox has room for. `most_messages` is the greatest number of messages that can be sent to
/// the mailbox.
pub(crate) fn room(cap: Capacity, most_messages: usize) -> u32
    requires { most_messages ≤ 2 * MAX_PAIRS }
    ensures { result ≡ room_within cap most_messages }
{
    let room = match cap {
        Capacity::Full => most_messages.max(1),
        Capacity::Each(messages) => messages as usize,
    };
    room.min(most_messages) as u32
}
