// Lines: hexadecimal digits and a line feed.

ghost use Rattle.std.specs.Prelude.{◌≡◌, ℕ, ◌+◌, ◌*◌, ◌%◌, ◌<◌, ◌≤◌, List, ◌++◌, length, map, take, drop, is_some, IfSome, None, Some, Ok, Err, MatchResult};
ghost use Rattle.std.specs.List.{All};
ghost use Rattle.faults.specs.declared.LineFault.TheVariants.{BadDigit};
ghost use Rattle.frames.specs.Lines.{digit, digits, line_of, IsFrame, is_digit, before_end, bad_digit, reading, writing, frame_limit};

use arrayvec::ArrayVec;
use faults::{FrameFault, LineFault};

// The most bytes that a frame has, the most digits that stand for it, and the most bytes of its line.
pub const FRAME_BYTES: usize = 16;

const LINE_DIGITS: usize = 2 * FRAME_BYTES;

pub const LINE_BYTES: usize = LINE_DIGITS + 1;

// The digit of a number below 16: `from_digit` would make lower case letters.
fn digit_of(n: u8) -> u8
    requires { n < 16 }
    ensures { result ≡ digit n }
{
    match n {
        0..=9 => b'0' + n,
        _ => b'A' + (n - 10),
    }
}

// The number that a digit stands for. A rule of the project: by ranges of bytes, with a guard for what is no digit; and
// `to_digit` would take lower case letters too.
fn value_of(byte: u8) -> Option<u8>
    ensures test { is_some result ≡ is_digit byte }
    ensures value { IfSome result (λ n. (n < 16) × (digit n ≡ byte)) }
{
    match byte {
        b if b < b'0' || b > b'F' => None,
        b'0'..=b'9' => Some(byte - b'0'),
        b'A'..=b'F' => Some(byte - b'A' + 10),
        _ => None,
    }
}

// Writes the digits of each byte of a frame, and the line feed. Each goes to its place, which is counted: `zip` of a `&mut`
// slice tells nothing of what it holds at the end, and a line made apart and then copied takes 1.7 to 2.9 times as long.
fn write_digits(frame: &[u8], line: &mut [u8])
    requires { 2 * length frame.now + 1 ≤ length line.old }
    ensures { line.new ≡ line_of frame.now ++ drop (2 * length frame.now + 1) line.old }
{
    for (i, byte) in frame.iter().enumerate() {
        line[2 * i] = digit_of(*byte / 16);
        line[2 * i + 1] = digit_of(*byte % 16);
    }
    line[2 * frame.len()] = b'\n';
}

// Writes the line of a frame, and tells its length. Bytes behind the line stay; a refusal changes no byte.
pub fn write_line(frame: &[u8], line: &mut [u8]) -> Result<usize, FrameFault>
    ensures answer { result ≡ writing (length frame.now) (length line.old) }
    ensures after { MatchResult result (λ n. line.new ≡ line_of frame.now ++ drop n line.old) (λ _. line.new ≡ line.old) }
{
    if frame.is_empty() || frame.len() > FRAME_BYTES {
        return Err(FrameFault::Size);
    }
    let size = 2 * frame.len() + 1;
    if line.len() < size {
        return Err(LineFault::ShortBuffer.into());
    }
    write_digits(frame, line);
    Ok(size)
}

// What stands before the end of a line.
fn before_end(line: &[u8]) -> &[u8]
    ensures { result.now ≡ before_end line.now }
{
    match line {
        [body @ .., b'\n'] => body,
        _ => line,
    }
}

// The number of each digit, or the place of the first byte that is no digit.
fn read_digits(body: &[u8]) -> Result<ArrayVec<u8, LINE_DIGITS>, LineFault>
    requires { length body.now ≤ 2 * frame_limit }
    ensures { MatchResult result
        (λ v. (bad_digit 0 body.now ≡ None) × (All (λ n. n < 16) v.items) × (map digit v.items ≡ body.now))
        (λ fault. (place : ℕ) × (bad_digit 0 body.now ≡ Some place) × (fault ≡ BadDigit place)) }
{
    let mut numbers = ArrayVec::new();
    for byte in body {
        let Some(number) = value_of(*byte) else {
            return Err(LineFault::BadDigit {
                place: numbers.len() as u8,
            });
        };
        numbers.push(number);
    }
    Ok(numbers)
}

// The byte of each two digits.
fn join_pairs(numbers: &[u8]) -> ArrayVec<u8, FRAME_BYTES>
    requires even { length numbers.now % 2 ≡ 0 }
    requires few { length numbers.now ≤ 2 * frame_limit }
    requires small { All (λ n. n < 16) numbers.now }
    ensures digits { digits result.items ≡ map digit numbers.now }
    ensures bytes { All (λ b. b < 256) result.items }
{
    let mut bytes = ArrayVec::new();
    for [high, low] in numbers.as_chunks::<2>().0 {
        bytes.push(16 * *high + *low);
    }
    bytes
}

// The frame that a line stands for, or the first fault of the line.
pub(crate) fn frame_of(line: &[u8]) -> Result<ArrayVec<u8, FRAME_BYTES>, LineFault>
    ensures { MatchResult result
        (λ v. IsFrame v.items × (line.now ≡ line_of v.items))
        (λ fault. reading frame_limit line.now ≡ Err fault) }
{
    let body = before_end(line);
    if body.len() > LINE_DIGITS {
        return Err(LineFault::TooLong);
    }
    let numbers = read_digits(body)?;
    if numbers.len() % 2 == 1 {
        return Err(LineFault::Odd);
    }
    if numbers.is_empty() {
        return Err(LineFault::Empty);
    }
    if body.len() == line.len() {
        return Err(LineFault::NotEnded);
    }
    Ok(join_pairs(numbers.as_slice()))
}

// Reads the frame that a line stands for, and tells its length. Bytes behind the frame stay; a refusal changes no
// byte. One rule holds both ways: an accepted line is the line of its frame, and the line of any frame reads back as
// that frame.
pub fn read_line(line: &[u8], frame: &mut [u8]) -> Result<usize, LineFault>
    ensures answer { result ≡ reading (length frame.old) line.now }
    ensures after { MatchResult result (λ n. IsFrame (take n frame.new) × (line.now ≡ line_of (take n frame.new)) × (drop n frame.new ≡ drop n frame.old)) (λ _. frame.new ≡ frame.old) }
    ensures back { (bytes : List ℕ) → IsFrame bytes → line.now ≡ line_of bytes → frame_limit ≤ length frame.old → (result ≡ Ok (length bytes)) × (take (length bytes) frame.new ≡ bytes) }
{
    if frame.len() < FRAME_BYTES {
        return Err(LineFault::ShortBuffer);
    }
    let bytes = frame_of(line)?;
    let size = bytes.len();
    frame[..size].copy_from_slice(bytes.as_slice());
    Ok(size)
}
