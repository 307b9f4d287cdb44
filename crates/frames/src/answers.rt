// Answers out.

ghost use Rattle.std.specs.Prelude.{◌≡◌, ◌++◌, length, drop, MatchResult};
ghost use Rattle.frames.specs.Lines.{line_of, writing};
ghost use Rattle.frames.specs.Answers.{answer_bytes};

use crate::lines::write_line;
use faults::FrameFault;
use network::options::OptionSet;

// What a line is answered, by the kind byte that the answer's frame begins with.
#[derive(Clone, Copy, PartialEq, Eq, Debug)]
pub enum Answer {
    // 80
    Done,
    // 81: a field and what stands there
    Shown { field: u8, set: OptionSet },
    // 82: how many options a settle struck, and how many now stand
    Settled { struck: u16, standing: u16 },
    // FF: a refusal number, and the number of the line. The number is the byte itself: there are fewer faults than bytes.
    Refused { number: u8, line: u16 },
}

impl Answer {
    // Writes the line of the answer's frame, and tells its length. Bytes behind the line stay; a refusal changes no byte.
    pub fn write(self, line: &mut [u8]) -> Result<usize, FrameFault>
        ensures answer { result ≡ writing (length (answer_bytes self)) (length line.old) }
        ensures after { MatchResult result (λ n. line.new ≡ line_of (answer_bytes self) ++ drop n line.old) (λ _. line.new ≡ line.old) }
    {
        match self {
            Answer::Done => write_line(&[0x80], line),
            Answer::Shown { field, set } => {
                let [s3, s2, s1, s0] = u32::from(set).to_be_bytes();
                write_line(&[0x81, field, s3, s2, s1, s0], line)
            }
            Answer::Settled { struck, standing } => {
                let [k1, k0] = struck.to_be_bytes();
                let [n1, n0] = standing.to_be_bytes();
                write_line(&[0x82, k1, k0, n1, n0], line)
            }
            Answer::Refused { number, line: at } => {
                let [at1, at0] = at.to_be_bytes();
                write_line(&[0xff, number, at1, at0], line)
            }
        }
    }
}
