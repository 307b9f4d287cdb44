// Lines that are read, and lines that are not.

use faults::{FrameFault, LineFault};
use frames::frames::receive;
use frames::lines::read_line;

#[test]
fn bad_lines_change_no_byte(rt: HostRuntime) {
    let mut frame = [7u8; 17];
    assert_eq!(rt; read_line(b"", &mut frame), Err(LineFault::Empty));
    assert_eq!(rt; read_line(b"\n", &mut frame), Err(LineFault::Empty));
    assert_eq!(rt; read_line(b"0\n", &mut frame), Err(LineFault::Odd));
    assert_eq!(rt; read_line(b"0", &mut frame), Err(LineFault::Odd));
    assert_eq!(rt; read_line(b"00", &mut frame), Err(LineFault::NotEnded));
    assert_eq!(rt;
        read_line(b"0a\n", &mut frame),
        Err(LineFault::BadDigit { place: 1 })
    );
    assert_eq!(rt;
        read_line(b"00\r\n", &mut frame),
        Err(LineFault::BadDigit { place: 2 })
    );
    assert_eq!(rt;
        read_line(b"\n00\n", &mut frame),
        Err(LineFault::BadDigit { place: 0 })
    );
    assert_eq!(rt;
        read_line(b"0\xc3\xa9\n", &mut frame),
        Err(LineFault::BadDigit { place: 1 })
    );
    for byte in frame {
        assert_eq!(rt; byte, 7);
    }
}

// 32 digits are the most; from 33 on a line is too long, whatever its bytes are.
#[test]
fn long_lines(rt: HostRuntime) {
    let mut frame = [7u8; 16];
    assert_eq!(rt;
        read_line(b"00112233445566778899AABBCCDDEEFF\n", &mut frame),
        Ok(16)
    );
    assert_eq!(rt; frame[0], 0);
    assert_eq!(rt; frame[15], 255);
    assert_eq!(rt;
        read_line(b"00112233445566778899AABBCCDDEEFF0\n", &mut frame),
        Err(LineFault::TooLong)
    );
    assert_eq!(rt;
        read_line(b"zzzzzzzzzzzzzzzzzzzzzzzzzzzzzzzzzzzzzzzz", &mut frame),
        Err(LineFault::TooLong)
    );
}

// A frame buffer of 0, 1 or 15 bytes is refused before the line is looked at.
#[test]
fn short_buffers(rt: HostRuntime) {
    let mut none = [0u8; 0];
    let mut one = [7u8; 1];
    let mut fifteen = [7u8; 15];
    assert_eq!(rt; read_line(b"05\n", &mut none), Err(LineFault::ShortBuffer));
    assert_eq!(rt; read_line(b"05\n", &mut one), Err(LineFault::ShortBuffer));
    assert_eq!(rt; read_line(b"zz", &mut fifteen), Err(LineFault::ShortBuffer));
    assert_eq!(rt; one[0], 7);
    assert_eq!(rt; fifteen[0], 7);
}

#[test]
fn bytes_behind_the_frame_stay(rt: HostRuntime) {
    let mut exact = [7u8; 16];
    let mut wide = [7u8; 33];
    assert_eq!(rt; read_line(b"0102\n", &mut exact), Ok(2));
    assert_eq!(rt; read_line(b"0A\n", &mut wide), Ok(1));
    assert_eq!(rt; exact[0], 1);
    assert_eq!(rt; exact[1], 2);
    assert_eq!(rt; exact[2], 7);
    assert_eq!(rt; exact[15], 7);
    assert_eq!(rt; wide[0], 10);
    assert_eq!(rt; wide[1], 7);
    assert_eq!(rt; wide[32], 7);
}

// The fault of a line is passed up whole.
#[test]
fn faults_are_passed_up(rt: HostRuntime) {
    assert_eq!(rt;
        receive(b"0x\n"),
        Err(FrameFault::Line(LineFault::BadDigit { place: 1 }))
    );
    assert_eq!(rt; receive(b"07\n"), Err(FrameFault::Unknown));
    assert_eq!(rt; receive(b"0100\n"), Err(FrameFault::Length));
}
