// Arcs and probes on either agenda.

use agenda::agenda::Agenda;
use agenda::first::FirstCome;
use agenda::job::{Job, Probe, put_job, take_job};
use agenda::lowest::LowestUrgency;
use network::rules::{Arc, Side};
use std::process::Abort;

// All arcs there are, and no others, go through an agenda. Probes have loops of their own below: one function for both
// would take the jobs as an iterator, and would have to ask that it ends.
fn arcs_pass<W: Agenda>(rt: &impl Abort, agenda: &mut W) {
    for rule in 0..128u8 {
        for side in [Side::Left, Side::Right] {
            assert!(rt; put_job(agenda, Arc { rule, side }, 1));
        }
    }
    for rule in [128u8, 129, 255] {
        assert!(rt;
            !put_job(
                agenda,
                Arc {
                    rule,
                    side: Side::Left,
                },
                1,
            )
        );
    }
    for rule in 0..128u8 {
        for side in [Side::Left, Side::Right] {
            assert_eq!(rt; take_job(agenda), Some(Arc { rule, side }));
        }
    }
    let none: Option<Arc> = take_job(agenda);
    assert_eq!(rt; none, None);
}

fn probes_pass<W: Agenda>(rt: &impl Abort, agenda: &mut W) {
    for field in 0..16u8 {
        for option in 0..32u8 {
            assert!(rt; put_job(agenda, Probe { field, option }, 1));
        }
    }
    for (field, option) in [(16u8, 0u8), (0, 32), (15, 32), (255, 255)] {
        assert!(rt; !put_job(agenda, Probe { field, option }, 1));
    }
    for field in 0..16u8 {
        for option in 0..32u8 {
            assert_eq!(rt; take_job(agenda), Some(Probe { field, option }));
        }
    }
    let none: Option<Probe> = take_job(agenda);
    assert_eq!(rt; none, None);
}

#[test]
fn jobs_pass(rt: HostRuntime) {
    let mut first = FirstCome::new();
    let mut lowest = LowestUrgency::new();
    arcs_pass(&rt, &mut first);
    probes_pass(&rt, &mut first);
    arcs_pass(&rt, &mut lowest);
    probes_pass(&rt, &mut lowest);
}

// A number that stands for no arc is taken off, and no arc comes.
#[test]
fn no_arc_above_the_limit(rt: HostRuntime) {
    let mut agenda = FirstCome::new();
    assert!(rt;
        put_job(
            &mut agenda,
            Probe {
                field: 8,
                option: 0,
            },
            1,
        )
    );
    let none: Option<Arc> = take_job(&mut agenda);
    assert_eq!(rt; none, None);
    assert_eq!(rt; agenda.take(), None);
    assert_eq!(rt; <Arc as Job>::LIMIT, 256);
    assert_eq!(rt; <Probe as Job>::LIMIT, 512);
}
