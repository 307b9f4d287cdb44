// The line that is being read.

ghost use Rattle.std.specs.Prelude.{◌≡◌, [], ◌∷◌, ◌++◌, length, take, ◌==◌};
ghost use Rattle.frames.specs.Lines.{line_reach};
ghost use Rattle.session.specs.Pending.{kept};

use arrayvec::ArrayVec;
use frames::lines::LINE_BYTES;

// With one byte more than the longest line has, a line is too long whatever follows.
const LINE_REACH: usize = LINE_BYTES + 1;

// The first bytes of a line that is not ended yet: as many as matter.
#[derive(Drop)]
pub struct PendingLine {
    bytes: ArrayVec<u8, LINE_REACH>,
}

impl PendingLine {
    // A line without a byte.
    pub fn new() -> PendingLine
        ensures { kept result ≡ [] }
    {
        PendingLine {
            bytes: ArrayVec::new(),
        }
    }

    // One byte more. It is let go where as many as matter are kept.
    pub fn push(&mut self, byte: u8)
        ensures { kept self.new ≡ take line_reach (kept self.old ++ byte ∷ []) }
    {
        if !self.bytes.is_full() {
            self.bytes.push(byte);
        }
    }

    pub fn clear(&mut self)
        ensures { kept self.new ≡ [] }
    {
        self.bytes.clear();
    }

    pub fn is_empty(&self) -> bool
        ensures { result ≡ (length (kept self.now) == 0) }
    {
        self.bytes.is_empty()
    }

    pub fn as_slice(&self) -> &[u8]
        ensures { result.now ≡ kept self.now }
    {
        self.bytes.as_slice()
    }
}
