ghost use Rattle.stair_watch.specs.WatcherList.{AllStay};

use stair_monitor::Quota;
use stair_rack::{Event, EventKind, FromWrite, MemSink, Next, Watcher};
use stair_watch::{Kept, Printer, Tally, add, tell};
use std::alloc::AllocError;

const EVENTS: [Event; 4] = [
    Event::Fenced { slot: 31 },
    Event::Repaired {
        stripe: 4294967295,
        cells: 65535,
    },
    Event::Admitted { slot: 0 },
    Event::Promoted { slot: 7 },
];

// Reports the event, and returns how many watchers remain.
fn left_after(watchers: &mut Vec<Box<dyn Watcher>>, event: Event) -> usize
    requires { AllStay hears watchers.old.items }
    ensures { AllStay hears watchers.new.items }
{
    tell(watchers, event);
    watchers.len()
}

// Of six watchers the first prints and stays, the next four leave after the third event, the second, the first and the second
// one, and the last keeps all four.
#[test]
fn each_leaves_at_the_last_event_that_it_waits_for(rt: HostRuntime) -> Result<(), AllocError> {
    let alloc = rt.alloc();
    let mut watchers = Vec::new(alloc);
    add(
        &mut watchers,
        Box::new(alloc, Printer::new(MemSink::new(alloc, 0)?))?,
    )?;
    add(&mut watchers, Box::new(alloc, Tally::new(3))?)?;
    add(&mut watchers, Box::new(alloc, Kept::new(alloc, 2)?)?)?;
    add(&mut watchers, Box::new(alloc, Kept::new(alloc, 1)?)?)?;
    add(&mut watchers, Box::new(alloc, Tally::new(2))?)?;
    add(&mut watchers, Box::new(alloc, Kept::new(alloc, 5)?)?)?;
    let [fenced, repaired, admitted, promoted] = EVENTS;
    assert_eq!(rt; left_after(&mut watchers, fenced), 5);
    assert_eq!(rt; left_after(&mut watchers, repaired), 3);
    assert_eq!(rt; left_after(&mut watchers, admitted), 2);
    assert_eq!(rt; left_after(&mut watchers, promoted), 2);
    if let Some(last) = watchers.pop() {
        let counts = last.counts();
        assert_eq!(rt; (counts.fenced, counts.repaired), (1, 1));
        assert_eq!(rt; (counts.admitted, counts.promoted), (1, 1));
        assert_eq!(rt; last.kept(1), Some(repaired));
        assert_eq!(rt; last.kept(4), None);
    }
    Ok(())
}

// A page on which nothing is printed.
const BLANK: [u8; 64] = [b'#'; 64];

// Whether these bytes were printed at the front of the page, and no others.
fn is_printed(page: &[u8; 64], bytes: &[u8]) -> bool {
    match page.strip_prefix(bytes) {
        Some(rest) => rest.iter().all(|byte| *byte == b'#'),
        None => false,
    }
}

// Each row is an event, how many bytes the page takes, and what is printed.
#[test]
fn a_line_up_to_a_fault(rt: HostRuntime) {
    let [fenced, repaired, admitted, promoted] = EVENTS;
    let line: &[u8] = b"repaired stripe 4294967295 cells 65535\n";
    let rows: [(Event, usize, &[u8]); 6] = [
        (fenced, 64, b"fenced 31\n"),
        (repaired, 64, line),
        (admitted, 64, b"admitted 0\n"),
        (promoted, 64, b"promoted 7\n"),
        (repaired, 38, &line[..38]),
        (fenced, 0, b""),
    ];
    for (event, room, line) in rows {
        let mut page = BLANK;
        let mut printer = Printer::new(FromWrite::new(&mut page[..room.min(64)]));
        assert_eq!(rt; printer.notice(event), Next::Stay);
        assert_eq!(rt; printer.kept(0), None);
        assert!(rt; is_printed(&page, line), "{event:?} {room}");
    }
}

// A quota of two fenced slots leaves at the second one, whatever the other events are and however much its sink takes.
#[test]
fn leaves_at_the_second_slot_fenced(rt: HostRuntime) {
    let rows: [(usize, &[u8]); 3] = [
        (64, b"fenced 3\nfenced 4\n"),
        (12, b"fenced 3\nfen"),
        (0, b""),
    ];
    for (room, lines) in rows {
        let mut page = BLANK;
        let sink = FromWrite::new(&mut page[..room.min(64)]);
        let mut quota = Quota::new(EventKind::Fenced, 2, sink);
        assert_eq!(rt; quota.notice(Event::Fenced { slot: 3 }), Next::Stay);
        let stripe = 70_000;
        assert_eq!(rt;
            quota.notice(Event::Repaired { stripe, cells: 2 }),
            Next::Stay
        );
        assert_eq!(rt; quota.notice(Event::Promoted { slot: 9 }), Next::Stay);
        assert_eq!(rt; quota.notice(Event::Fenced { slot: 4 }), Next::Leave);
        assert_eq!(rt; quota.counts().fenced, 2);
        assert_eq!(rt; quota.counts().repaired, 1);
        assert_eq!(rt; quota.kept(0), None);
        assert!(rt; is_printed(&page, lines), "{room}");
    }
}
