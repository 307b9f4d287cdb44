// Frames in.

ghost use Rattle.std.specs.Prelude.{◌≡◌};
ghost use Rattle.frames.specs.Frames.{decoding};
ghost use Rattle.frames.specs.Received.{Received};

use crate::lines::frame_of;
use faults::FrameFault;
use network::options::OptionSet;

// What a line asks for, by the kind byte that its frame begins with.
#[derive(Clone, Copy, PartialEq, Eq, Debug)]
pub enum Frame {
    // 01: the next field with its set
    EnterField {
        field: u8,
        set: OptionSet,
    },
    // 02: a new table rule, with no pair
    StartTable {
        left: u8,
        right: u8,
    },
    // 03: a row of the newest table rule
    SetRow {
        option: u8,
        set: OptionSet,
    },
    // 04: a formula rule. The kind is the byte itself: a `Kind` takes fewer values, and would not tell the line.
    EnterFormula {
        left: u8,
        right: u8,
        kind: u8,
        difference: i8,
    },
    // 05: close the catalogue and open a draft
    Open,
    // 06: the same over tightened sets
    TightenAndOpen,
    // 10
    Choose {
        field: u8,
        option: u8,
    },
    // 11
    Exclude {
        field: u8,
        option: u8,
    },
    // 12
    Settle,
    // 13
    TakeBack,
    // 14
    Show {
        field: u8,
    },
}

// The frame that some bytes are.
pub fn decode(bytes: &[u8]) -> Result<Frame, FrameFault>
    ensures { result ≡ decoding bytes.now }
{
    match bytes {
        [0x01, field, s3, s2, s1, s0] => Ok(Frame::EnterField {
            field: *field,
            set: OptionSet::from(u32::from_be_bytes([*s3, *s2, *s1, *s0])),
        }),
        [0x02, left, right] => Ok(Frame::StartTable {
            left: *left,
            right: *right,
        }),
        [0x03, option, s3, s2, s1, s0] => Ok(Frame::SetRow {
            option: *option,
            set: OptionSet::from(u32::from_be_bytes([*s3, *s2, *s1, *s0])),
        }),
        [0x04, left, right, kind, difference] => Ok(Frame::EnterFormula {
            left: *left,
            right: *right,
            kind: *kind,
            difference: difference.cast_signed(),
        }),
        [0x05] => Ok(Frame::Open),
        [0x06] => Ok(Frame::TightenAndOpen),
        [0x10, field, option] => Ok(Frame::Choose {
            field: *field,
            option: *option,
        }),
        [0x11, field, option] => Ok(Frame::Exclude {
            field: *field,
            option: *option,
        }),
        [0x12] => Ok(Frame::Settle),
        [0x13] => Ok(Frame::TakeBack),
        [0x14, field] => Ok(Frame::Show { field: *field }),
        [0x01..=0x06 | 0x10..=0x14, ..] => Err(FrameFault::Length),
        _ => Err(FrameFault::Unknown),
    }
}

// The frame that a line stands for. A line is accepted just if it is the line of a frame's bytes, and is then taken for
// that frame.
pub fn receive(line: &[u8]) -> Result<Frame, FrameFault>
    ensures { Received line.now result }
{
    let bytes = frame_of(line)?;
    decode(bytes.as_slice())
}
