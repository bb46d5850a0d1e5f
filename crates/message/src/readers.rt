// A reader over one message, which hands out its bodies as parts of it.
ghost use Rattle.std.specs.Prelude.{◌≡◌, ◌+◌, ◌*◌, ◌≤◌, length, slice_index};

use base::counters::Member;
use base::writing::two_at;

// A part of a message, with the place where it begins.
#[derive(Clone, Copy)]
pub struct Part<'a> {
    pub offset: usize,
    pub bytes: &'a [u8],
}

// A body and what the table of contents says of it.
#[derive(Clone, Copy)]
pub struct Body<'a> {
    // Kept: the byte as it stands, which may be of no sort.
    pub sort: u8,
    pub member: Member,
    pub part: Part<'a>,
}

// One message, the place in its table of contents, and where the next body begins. Header and table are there.
#[derive(Clone, Copy)]
pub struct Reader<'a> {
    message: &'a [u8],
    index: usize,
    at: usize,
    ghost header: { 12 ≤ length message.now },
    ghost zero: { slice_index message.now 3 ≡ 0 },
    ghost table: { 12 + 4 * slice_index message.now 2 ≤ length message.now },
}

impl<'a> Iterator for Reader<'a> {
    ghost use Rattle.std.specs.Option.{option_map};
    ghost use Rattle.std.specs.Iterator.{item_count};
    ghost use Rattle.message.specs.Layout.{left};
    ghost use Rattle.message.specs.Steps.{Nexted};
    ghost use Rattle.message.specs.Views.{entry_of, place_of};

    type Item = Body<'a>;

    ghost next_gives = { λ before found after. Nexted (place_of before) (place_of after) (option_map entry_of found) };

    ghost remaining = { item_count (λ reader. left (place_of reader)) };

    fn next(&mut self) -> Option<Body<'a>> {
        Reader::next(self)
    }
}

impl<'a> Reader<'a> {
    ghost use Rattle.std.specs.Prelude.{◌≡◌, ◌&&◌, length, if◌then◌else◌, Some, None, ◌==◌};
    ghost use Rattle.std.specs.Option.{option_map};
    ghost use Rattle.message.specs.Layout.{opens, opening, next_of, after_next, left, ending, whole};
    ghost use Rattle.message.specs.Shapes.{ended};
    ghost use Rattle.message.specs.Views.{entry_of, place_of};

    // Begins to read; none where the header or the table of contents is not there.
    pub fn new(message: &'a [u8]) -> Option<Reader<'a>>
        ensures { option_map place_of result ≡ (if opens message.now then Some (opening message.now) else None) }
    {
        if message.len() < 12 || message[3] != 0 {
            return None;
        }
        let at = 12 + 4 * message[2] as usize;
        if at > message.len() {
            return None;
        }
        Some(Reader {
            message,
            index: 0,
            at,
        })
    }

    // The next body; none where there is no further one, or where it is cut short.
    pub fn next(&mut self) -> Option<Body<'a>>
        ensures body { option_map entry_of result ≡ next_of (place_of self.old) }
        ensures after { place_of self.new ≡ after_next (place_of self.old) }
    {
        let m = self.message;
        if self.index >= m[2] as usize {
            return None;
        }
        let entry = 12 + 4 * self.index;
        let len = two_at(m, entry + 2) as usize;
        let part = Part {
            offset: self.at,
            bytes: m.get(self.at..)?.get(..len)?,
        };
        self.index += 1;
        self.at += len;
        Some(Body {
            sort: m[entry],
            member: Member(m[entry + 1]),
            part,
        })
    }

    // How many bodies are still to come, by the table of contents.
    pub fn remaining(&self) -> usize
        ensures { result ≡ length (left (place_of self.now)) }
    {
        (self.message[2] as usize).saturating_sub(self.index)
    }

    // Whether every body was handed out and no byte is left over.
    #[tactic(auto, using(crate::proofs::Reading::finished_is))]
    pub fn finished(&self) -> bool
        ensures wholly { result ≡ (ended (left (place_of self.now)) && whole (place_of self.now)) }
        ensures is { result ≡ (ended (left (place_of self.now)) && ending (place_of self.now) == length self.now.message.now) }
    {
        self.remaining() == 0 && self.at == self.message.len()
    }
}
