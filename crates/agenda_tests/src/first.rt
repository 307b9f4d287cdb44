// First come, first served.

use agenda::agenda::Agenda;
use agenda::first::FirstCome;

// Every number has a place, and no other number has.
#[test]
fn takes_all_in_their_order(rt: HostRuntime) {
    let mut agenda = FirstCome::new();
    assert_eq!(rt; agenda.take(), None);
    for number in 0..512u16 {
        assert!(rt; agenda.put(number, 0));
    }
    for number in [512u16, 513, 1024, 65535] {
        assert!(rt; !agenda.put(number, 0));
    }
    for number in 0..512u16 {
        assert_eq!(rt; agenda.take(), Some(number));
    }
    assert_eq!(rt; agenda.take(), None);
}

// From every place on, the ring goes round once with all numbers in it.
#[test]
fn goes_round(rt: HostRuntime) {
    let mut agenda = FirstCome::new();
    for start in 0..512u16 {
        for number in (0..512u16).rev() {
            assert!(rt; agenda.put(number, 1));
        }
        for number in (0..512u16).rev() {
            assert_eq!(rt; agenda.take(), Some(number));
        }
        assert!(rt; agenda.put(start, 1));
        assert_eq!(rt; agenda.take(), Some(start));
    }
}

// Put again, a number keeps its place, whichever it is and whatever its urgency.
#[test]
fn keeps_places(rt: HostRuntime) {
    let mut agenda = FirstCome::new();
    for number in 300..512u16 {
        assert!(rt; agenda.put(number, 9));
    }
    for number in 0..300u16 {
        assert!(rt; agenda.put(number, 9));
    }
    for number in (0..512u16).rev() {
        assert!(rt; agenda.put(number, 0));
    }
    for number in 300..512u16 {
        assert_eq!(rt; agenda.take(), Some(number));
    }
    assert!(rt; agenda.put(300, 0));
    for number in 0..300u16 {
        assert_eq!(rt; agenda.take(), Some(number));
    }
    assert_eq!(rt; agenda.take(), Some(300));
    assert_eq!(rt; agenda.take(), None);
}

#[test]
fn clears(rt: HostRuntime) {
    let mut agenda = FirstCome::new();
    for number in 100..200u16 {
        assert!(rt; agenda.put(number, 3));
    }
    agenda.clear();
    assert_eq!(rt; agenda.take(), None);
    assert!(rt; agenda.put(150, 3));
    assert_eq!(rt; agenda.take(), Some(150));
}
