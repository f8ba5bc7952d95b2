// Watchers over two calls of `stair`, and what they print.
ghost use Rattle.std.specs.Prelude.{None};
ghost use Rattle.stair_watch.specs.WatcherList.{AllStay};

use stair_calls::{Came, Ends, WHOLE, act, call_watched, sector, told, with_blocks, words_of};
use stair_engine::Status;
use stair_memrack::{Act, MemRack, What};
use stair_monitor::Quota;
use stair_rack::{Event, EventKind, MemSink, Put, Rack, Sink, Watcher};
use stair_watch::{Kept, Printer, Tally, add};
use std::alloc::{AllocError, Global};
use std::cell::RefCell;
use std::rc::Rc;
use std::test::Fail;

// WATCHERS

// The output of a watcher. It can be read while the watcher is in use, and after it is dropped. It has room for a few
// lines.
#[derive(Drop)]
struct Page {
    lines: Rc<RefCell<Vec<u8>>>,
}

impl Page {
    fn new(alloc: Global) -> Result<Page, AllocError> {
        let lines = Vec::with_capacity(alloc, 200)?;
        Ok(Page {
            lines: Rc::new(alloc, RefCell::new(lines))?,
        })
    }

    // The same page, for a watcher.
    fn share(&self) -> Result<Page, AllocError> {
        Ok(Page {
            lines: self.lines.clone()?,
        })
    }

    // Whether a watcher still has it.
    fn is_shared(&self) -> bool {
        Rc::strong_count(&self.lines) > 1
    }

    // Whether this was printed, and no more.
    fn says(&self, text: &str) -> bool {
        match self.lines.try_borrow() {
            Ok(lines) => lines.as_slice() == text.as_bytes(),
            Err(_) => false,
        }
    }
}

impl Sink for Page {
    ghost held = { λ _. None };

    ghost faults = { λ _. 0 };

    fn put(&mut self, from: &[u8]) -> Put {
        if let Ok(mut lines) = self.lines.try_borrow_mut() {
            let _ = lines.extend_from_slice(from);
        }
        Put::Bytes(from.len())
    }
}

// What a printer and a quota print.
#[derive(Drop)]
struct Pages {
    printer: Page,
    quota: Page,
}

impl Pages {
    fn new(alloc: Global) -> Result<Pages, AllocError> {
        Ok(Pages {
            printer: Page::new(alloc)?,
            quota: Page::new(alloc)?,
        })
    }
}

// Does a script with these watchers. Returns its result, with what the first of them kept.
fn ran(
    alloc: Global,
    rack: &mut MemRack,
    line: &str,
    script: &[u8],
    ends: Ends,
    watchers: &mut Vec<Box<dyn Watcher>>,
) -> Result<Came, AllocError>
    requires { AllStay hears watchers.old.items }
    ensures { AllStay hears watchers.new.items }
{
    let words = words_of(alloc, line)?;
    let mut sink = MemSink::new(alloc, ends.room)?;
    let (status, left) = call_watched(alloc, rack, &words, script, ends, &mut sink, watchers)?;
    let told = match watchers.first() {
        Some(first) => Some([first.kept(0), first.kept(1), first.kept(2)]),
        None => None,
    };
    Ok(Came {
        status,
        put: sink.bytes().to_vec(alloc)?,
        told,
        left,
    })
}

// The result of a script with watchers.
#[derive(Drop)]
struct Watched {
    came: Came,
    pages: Pages,
    // how many watchers are left, and whether the printer and the quota are among them
    stay: (usize, bool, bool),
}

// RACKS

fn pull(at: u32, slot: u8) -> Act {
    act(at, What::Pull { slot })
}

fn damage(slot: u8, sector: u32) -> Act {
    act(0, What::Damage { slot, sector })
}

// The array of four devices, all of whose blocks were written. Cell (0, 0) of stripes 0 and 1 is bad, and so may a slot be.
fn with_two_bad(alloc: Global, more: &[Act]) -> Result<MemRack, AllocError> {
    let mut acts = Vec::new(alloc);
    acts.extend_from_slice(&[damage(0, 11), damage(0, 13)])?;
    acts.extend_from_slice(more)?;
    with_blocks(alloc, &acts)
}

const FIRST: &str = "scrubbed stripe 0 cells 1\n";

const SECOND: &str = "scrubbed stripe 1 cells 1\n";

// The first event is that of line 1: line 2 is not done. Only the watcher of one event is dropped; the others continue
// in another script.
#[test]
fn a_script_is_halted_behind_a_line(rt: HostRuntime) -> Result<(), Fail> {
    let alloc = rt.alloc();
    let mut rack = with_two_bad(alloc, &[])?;
    let pages = Pages::new(alloc)?;
    let mut watchers = Vec::new(alloc);
    let printer = Printer::new(pages.printer.share()?);
    add(&mut watchers, Box::new(alloc, printer)?)?;
    add(&mut watchers, Box::new(alloc, Tally::new(u64::MAX))?)?;
    add(&mut watchers, Box::new(alloc, Tally::new(1))?)?;
    let quota = Quota::new(EventKind::Fenced, 9, pages.quota.share()?);
    add(&mut watchers, Box::new(alloc, quota)?)?;
    let script = b"scrub 0\nscrub 1\n";
    let came = ran(alloc, &mut rack, "guard 1 9", script, WHOLE, &mut watchers)?;
    assert_eq!(rt; came.status, Status::Halted(1));
    assert!(rt; came.put.as_slice() == FIRST.as_bytes());
    rack.attach(0);
    assert!(rt; sector(&mut rack, 0, 11) == Some([1; 512]));
    assert!(rt; sector(&mut rack, 0, 13).is_none());
    assert_eq!(rt; watchers.len(), 3);
    assert!(rt; pages.printer.is_shared() && pages.quota.is_shared());
    let came = ran(
        alloc,
        &mut rack,
        "guard 1 9",
        b"scrub 1\n",
        WHOLE,
        &mut watchers,
    )?;
    assert_eq!(rt; came.status, Status::Done);
    assert!(rt; came.put.as_slice() == SECOND.as_bytes());
    assert_eq!(rt; watchers.len(), 3);
    assert!(rt;
        pages
            .printer
            .says("repaired stripe 0 cells 1\nrepaired stripe 1 cells 1\n")
    );
    assert!(rt; pages.quota.says(""));
    Ok(())
}

// How a script ends that a `Kept`, a `Quota` of one stripe repaired and a `Printer` watch, where slot 3 is empty and two cells are bad.
fn with_quota(alloc: Global, line: &str) -> Result<Watched, AllocError> {
    let mut rack = with_two_bad(alloc, &[pull(0, 3)])?;
    let pages = Pages::new(alloc)?;
    let mut watchers = Vec::new(alloc);
    add(&mut watchers, Box::new(alloc, Kept::new(alloc, 9)?)?)?;
    let quota = Quota::new(EventKind::Repaired, 1, pages.quota.share()?);
    add(&mut watchers, Box::new(alloc, quota)?)?;
    let printer = Printer::new(pages.printer.share()?);
    add(&mut watchers, Box::new(alloc, printer)?)?;
    let script = b"scrub 0\nscrub 1\n";
    let came = ran(alloc, &mut rack, line, script, WHOLE, &mut watchers)?;
    let stay = (
        watchers.len(),
        pages.printer.is_shared(),
        pages.quota.is_shared(),
    );
    Ok(Watched { came, pages, stay })
}

// The quota leaves at line 1, and no later event is reported to it. `run` continues without it, `guard` does not.
#[test]
fn a_quota_leaves_a_run_and_a_guard(rt: HostRuntime) -> Result<(), Fail> {
    let events = [
        Event::Fenced { slot: 3 },
        Event::Repaired {
            stripe: 0,
            cells: 1,
        },
        Event::Repaired {
            stripe: 1,
            cells: 1,
        },
    ];
    let ran = with_quota(rt.alloc(), "run")?;
    assert_eq!(rt; ran.came.status, Status::Done);
    assert!(rt;
        ran.came.put.as_slice()
            == b"scrubbed stripe 0 cells 1\nscrubbed stripe 1 cells 1\n".as_slice()
    );
    assert!(rt; ran.came.told == told(&events));
    assert!(rt;
        ran.pages.printer.says("fenced 3\nrepaired stripe 0 cells 1\nrepaired stripe 1 cells 1\n")
    );
    assert!(rt; ran.pages.quota.says("repaired stripe 0 cells 1\n"));
    assert_eq!(rt; ran.stay, (2, true, false));
    let halted = with_quota(rt.alloc(), "guard 9 9")?;
    assert_eq!(rt; halted.came.status, Status::Halted(1));
    assert!(rt; halted.came.put.as_slice() == FIRST.as_bytes());
    assert!(rt; halted.came.told == told(&events[..2]));
    assert!(rt;
        halted
            .pages
            .printer
            .says("fenced 3\nrepaired stripe 0 cells 1\n")
    );
    assert!(rt; halted.pages.quota.says("repaired stripe 0 cells 1\n"));
    assert_eq!(rt; halted.stay, (2, true, false));
    Ok(())
}
