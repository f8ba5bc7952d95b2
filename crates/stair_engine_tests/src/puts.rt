// How a line and a reply to a client are put out, and a call of the laws.
ghost use Rattle.std.specs.Prelude.{None};

use stair_calls::{FOUR, WHOLE, call_into, with_array, words_of};
use stair_engine::Status;
use stair_engine::laws::program_laws;
use stair_memrack::MemRack;
use stair_rack::{MemSink, MemSource, Put, Sink};
use stair_watch::Kept;
use std::test::Fail;

// A sink that takes all that is put, and counts the puts.
#[derive(Drop)]
struct PutCounter {
    puts: u32,
}

impl Sink for PutCounter {
    ghost held = { λ _. None };

    ghost faults = { λ _. 0 };

    fn put(&mut self, from: &[u8]) -> Put {
        self.puts = self.puts.saturating_add(1);
        Put::Bytes(from.len())
    }
}

// A client's flags, the option that names the export, READ of bytes 510 to 513, and FLUSH.
const CLIENT: &[u8] = b"\0\0\0\x03IHAVEOPT\0\0\0\x01\0\0\0\0\
\x25\x60\x95\x13\0\0\0\0\0\0\0\0\0\0\0\x09\0\0\0\0\0\0\x01\xfe\0\0\0\x04\
\x25\x60\x95\x13\0\0\0\x03\0\0\0\0\0\0\0\x0a\0\0\0\0\0\0\0\0\0\0\0\0";

// `show` prints three lines of the array and a line for each of its four slots.
#[test]
fn a_line_is_one_put(rt: HostRuntime) -> Result<(), Fail> {
    let mut rack = with_array(rt.alloc(), &FOUR, &[])?;
    let mut output = PutCounter { puts: 0 };
    let words = words_of(rt.alloc(), "show")?;
    let ended = call_into(rt.alloc(), &mut rack, &words, &[], WHOLE, &mut output)?;
    assert_eq!(rt; ended.status, Status::Done);
    assert_eq!(rt; output.puts, 7);
    program_laws::<MemRack, Kept, MemSource, MemSink>();
    Ok(())
}

// The greeting, the answer to the option, and the two replies, of which the first has the bytes that were read.
#[test]
fn a_reply_is_one_put(rt: HostRuntime) -> Result<(), Fail> {
    let mut rack = with_array(rt.alloc(), &FOUR, &[])?;
    let mut output = PutCounter { puts: 0 };
    let words = words_of(rt.alloc(), "serve")?;
    let ended = call_into(rt.alloc(), &mut rack, &words, CLIENT, WHOLE, &mut output)?;
    assert_eq!(rt; ended.status, Status::Done);
    assert_eq!(rt; output.puts, 4);
    Ok(())
}
