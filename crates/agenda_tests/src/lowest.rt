// Lowest urgency first.

use agenda::agenda::Agenda;
use agenda::lowest::LowestUrgency;

// By rising urgency, and under one urgency by rising number.
#[test]
fn takes_all_by_urgency(rt: HostRuntime) {
    let mut agenda = LowestUrgency::new();
    assert_eq!(rt; agenda.take(), None);
    for number in (0..512u16).rev() {
        assert!(rt; agenda.put(number, (number % 32) as u8));
    }
    for number in [512u16, 513, 1024, 65535] {
        assert!(rt; !agenda.put(number, 0));
    }
    for urgency in 0..32u16 {
        for row in 0..16u16 {
            assert_eq!(rt; agenda.take(), Some(row * 32 + urgency));
        }
    }
    assert_eq!(rt; agenda.take(), None);
}

// Put again, a number takes the new urgency, whichever it is and however far it moves.
#[test]
fn takes_new_urgencies(rt: HostRuntime) {
    let mut agenda = LowestUrgency::new();
    for number in 0..512u16 {
        assert!(rt; agenda.put(number, (number % 256) as u8));
    }
    for number in 0..512u16 {
        assert!(rt; agenda.put(number, 255 - (number / 2) as u8));
    }
    for pair in (0..256u16).rev() {
        assert_eq!(rt; agenda.take(), Some(pair * 2));
        assert_eq!(rt; agenda.take(), Some(pair * 2 + 1));
    }
    assert_eq!(rt; agenda.take(), None);
}

#[test]
fn puts_between_takes(rt: HostRuntime) {
    let mut agenda = LowestUrgency::new();
    for (number, urgency) in [
        (7u16, 255u8),
        (500, 0),
        (64, 5),
        (63, 5),
        (500, 255),
        (7, 255),
    ] {
        assert!(rt; agenda.put(number, urgency));
    }
    assert_eq!(rt; agenda.take(), Some(63));
    assert!(rt; agenda.put(511, 4));
    for number in [511u16, 64, 7, 500] {
        assert_eq!(rt; agenda.take(), Some(number));
    }
    assert_eq!(rt; agenda.take(), None);
    assert!(rt; agenda.put(3, 2));
    agenda.clear();
    assert_eq!(rt; agenda.take(), None);
}
