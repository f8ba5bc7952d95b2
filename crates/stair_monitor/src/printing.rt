ghost use Rattle.std.specs.Prelude.{◌≡◌, ◌≤◌, drop, length, take};
ghost use Rattle.stair_script.specs.Events.{IsEvent, SpellsEvent, event_text};

use stair_rack::Event;
use stair_watch::Line;

/// The size of the buffer for the line of an event, in bytes. A line has at most 37.
pub const MAX_EVENT_LINE: usize = 64;

/// Writes the line of an event, without its end, to the front of `into`, and returns its length in bytes.
///
/// The bytes after it stay as they were. It allocates no memory.
pub fn print_event(event: Event, into: &mut [u8; MAX_EVENT_LINE]) -> usize
    requires { IsEvent event }
    ensures text { take result into.new ≡ event_text event }
    ensures length { result ≤ MAX_EVENT_LINE }
    ensures spells { SpellsEvent (take result into.new) event }
    ensures rest { drop result into.new ≡ drop result into.old }
{
    let text = text_of(event);
    let bytes = text.bytes();
    into[..bytes.len()].copy_from_slice(bytes);
    bytes.len()
}

/// Returns the line of an event, without its end.
pub(crate) fn text_of(event: Event) -> Line
    ensures text { result ≡ event_text event }
    ensures short { length result ≤ 100 }
{
    let mut text = Line::new();
    match event {
        Event::Fenced { slot } => text.push_named(b"fenced ", u64::from(slot)),
        Event::Repaired { stripe, cells } => {
            text.push_named(b"repaired stripe ", u64::from(stripe));
            text.push_named(b" cells ", u64::from(cells));
        }
        Event::Admitted { slot } => text.push_named(b"admitted ", u64::from(slot)),
        Event::Promoted { slot } => text.push_named(b"promoted ", u64::from(slot)),
    }
    text
}
