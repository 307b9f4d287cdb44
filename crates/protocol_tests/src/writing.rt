// Lines that are written.

use faults::{FrameFault, LineFault};
use frames::answers::Answer;
use frames::lines::write_line;
use network::options::OptionSet;

#[test]
fn frames_that_have_no_line(rt: HostRuntime) {
    let mut line = [7u8; 40];
    assert_eq!(rt; write_line(&[], &mut line), Err(FrameFault::Size));
    assert_eq!(rt; write_line(&[0u8; 17], &mut line), Err(FrameFault::Size));
    for byte in line {
        assert_eq!(rt; byte, 7);
    }
}

// The longest line takes 33 bytes.
#[test]
fn short_buffers(rt: HostRuntime) {
    let short = Err(FrameFault::Line(LineFault::ShortBuffer));
    let mut none = [0u8; 0];
    let mut one = [7u8; 1];
    let mut most = [7u8; 32];
    let mut exact = [7u8; 33];
    assert_eq!(rt; write_line(&[1], &mut none), short);
    assert_eq!(rt; write_line(&[1], &mut one), short);
    assert_eq!(rt; write_line(&[255u8; 16], &mut most), short);
    assert_eq!(rt; one[0], 7);
    assert_eq!(rt; most[0], 7);
    assert_eq!(rt; write_line(&[255u8; 16], &mut exact), Ok(33));
    assert_eq!(rt; exact[0], b'F');
    assert_eq!(rt; exact[32], b'\n');
}

#[test]
fn bytes_behind_the_line_stay(rt: HostRuntime) {
    let mut line = [7u8; 5];
    assert_eq!(rt; write_line(&[0x3c], &mut line), Ok(3));
    assert_eq!(rt; line.as_slice(), b"3C\n\x07\x07".as_slice());
}

#[test]
fn answers(rt: HostRuntime) {
    let mut line = [7u8; 14];
    let shown = Answer::Shown {
        field: 1,
        set: OptionSet::from(0x8000_0006),
    };
    assert_eq!(rt; shown.write(&mut line), Ok(13));
    assert_eq!(rt; line.as_slice(), b"810180000006\n\x07".as_slice());
}
