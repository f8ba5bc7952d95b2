use stair_monitor::{MAX_EVENT_LINE, print_event, read_event};
use stair_rack::Event;

// Each row is an event, and its line.
const TEXTS: [(Event, &[u8]); 7] = [
    (Event::Fenced { slot: 0 }, b"fenced 0"),
    (Event::Admitted { slot: 9 }, b"admitted 9"),
    (Event::Promoted { slot: 31 }, b"promoted 31"),
    (
        Event::Repaired {
            stripe: 0,
            cells: 1,
        },
        b"repaired stripe 0 cells 1",
    ),
    (
        Event::Repaired {
            stripe: 65_535,
            cells: 1_024,
        },
        b"repaired stripe 65535 cells 1024",
    ),
    (
        Event::Repaired {
            stripe: 65_536,
            cells: 1,
        },
        b"repaired stripe 65536 cells 1",
    ),
    (
        Event::Repaired {
            stripe: 4_294_967_294,
            cells: 1_024,
        },
        b"repaired stripe 4294967294 cells 1024",
    ),
];

#[test]
fn prints_lines_that_are_read_again(rt: HostRuntime) {
    for (event, text) in TEXTS {
        let mut into = [b'#'; MAX_EVENT_LINE];
        let len = print_event(event, &mut into);
        assert_eq!(rt; &into[..len], text);
        assert_eq!(rt; into[len], b'#');
        assert_eq!(rt; read_event(&into[..len]), Some(event));
    }
}
