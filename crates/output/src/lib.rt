// Bytes that a call writes to the front of a lent buffer: as they are built, and then written if the buffer has the room.
// (For our own crates.)
#![tactic(auto)]

ghost use Rattle.std.specs.Prelude.{◌≡◌, ◌+◌, ◌≤◌, ◌<◌, [], ◌∷◌, length, take};
ghost use Rattle.output.specs.declared.TheConstants.{MOST_OUTPUT};
ghost use Rattle.output.specs.Writing.{Wrote};

use terms::Refusal;

// No call writes more: the longest ticket.
pub const MOST_OUTPUT: usize = 412;

// What is built so far: the first `used` bytes. It is lent to each function that appends to it. (The kit's ArrayVec has the same methods,
// but is not Copy.)
#[derive(Clone, Copy)]
pub struct Output {
    pub bytes: [u8; MOST_OUTPUT],
    pub used: usize,
    ghost fits: { used ≤ MOST_OUTPUT },
}

impl Output {
    ghost use Rattle.output.specs.Building.{most_output, Says, Adds};

    pub fn new() -> Output
        ensures { Says result [] }
    {
        Output {
            bytes: [0; MOST_OUTPUT],
            used: 0,
        }
    }

    pub fn push(&mut self, b: u8)
        requires { self.old.used < most_output }
        ensures { Adds self.old (b ∷ []) self.new }
    {
        self.bytes[self.used] = b;
        self.used += 1;
    }

    pub fn append(&mut self, more: &[u8])
        requires { self.old.used + length more.now ≤ most_output }
        ensures { Adds self.old more.now self.new }
    {
        let end = self.used + more.len();
        self.bytes[self.used..end].copy_from_slice(more);
        self.used = end;
    }

    pub fn as_slice(&self) -> &[u8]
        ensures { result.now ≡ take self.now.used self.now.bytes }
    {
        &self.bytes[..self.used]
    }
}

// What was built, to the front of the buffer, and its length; or 19 with the length needed.
#[tactic(auto, unfolding(crate::specs::Writing::written_over, crate::specs::Writing::written_for))]
pub fn deliver(out: &[u8], buffer: &mut [u8]) -> Result<usize, Refusal>
    ensures { Wrote out.now buffer.old buffer.new result }
{
    let length = out.len();
    if buffer.len() < length {
        return Err(Refusal {
            number: 19,
            place: length,
        });
    }
    buffer[..length].copy_from_slice(out);
    Ok(length)
}
