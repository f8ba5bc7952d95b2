//! Readers and writers as sources and sinks, and sources and sinks in memory.

use stair_rack::{FromRead, FromWrite, MemSink, MemSource, Put, Sink, Source, Taken};
use std::io;
use std::io::{ErrorKind, Read, Write};
use std::process::Abort;

// What one read or write does.
#[derive(Clone, Copy, Drop)]
enum Turn {
    Count(u8),
    Interrupted,
    Broken,
}

// A reader and a writer that does these turns, and then gives and takes 0 bytes.
#[derive(Drop)]
struct Scripted<'a> {
    turns: &'a [Turn],
}

impl Scripted<'_> {
    fn next(&mut self) -> io::Result<usize> {
        let Some((turn, rest)) = self.turns.split_first() else {
            return Ok(0);
        };
        self.turns = rest;
        match turn {
            Turn::Count(count) => Ok(usize::from(*count)),
            Turn::Interrupted => Err(io::Error::from(ErrorKind::Interrupted)),
            Turn::Broken => Err(io::Error::other("broken")),
        }
    }
}

impl Read for Scripted<'_> {
    fn read(&mut self, into: &mut [u8]) -> io::Result<usize> {
        Ok(self.next()?.min(into.len()))
    }
}

impl Write for Scripted<'_> {
    fn write(&mut self, from: &[u8]) -> io::Result<usize> {
        Ok(self.next()?.min(from.len()))
    }

    fn flush(&mut self) -> io::Result<()> {
        Ok(())
    }
}

const TURNS: [Turn; 7] = [
    Turn::Count(3),
    Turn::Interrupted,
    Turn::Count(2),
    Turn::Broken,
    Turn::Count(1),
    Turn::Count(0),
    Turn::Count(4),
];

// A source over a reader of these turns gives these pieces. The reader isn't asked for the last `left` turns.
fn check_source(rt: &impl Abort, turns: &[Turn], takes: &[Taken], left: usize) {
    let mut reader = Scripted { turns };
    let mut source = FromRead::new(&mut reader);
    for taken in takes {
        assert_eq!(rt; source.take(&mut [0; 8]), *taken);
    }
    assert_eq!(rt; reader.turns.len(), left);
}

// A sink over a writer of these turns takes these pieces.
fn check_sink(rt: &impl Abort, turns: &[Turn], puts: &[Put]) {
    let mut sink = FromWrite::new(Scripted { turns });
    for put in puts {
        assert_eq!(rt; sink.put(&[0; 8]), *put);
    }
}

#[test]
fn what_a_reader_and_a_writer_answer(rt: HostRuntime) {
    let takes = [
        Taken::Bytes(3),
        Taken::Bytes(2),
        Taken::Failed,
        Taken::Bytes(1),
        // The end stays, and the reader isn't asked again.
        Taken::End,
        Taken::End,
    ];
    check_source(&rt, &TURNS, &takes, 1);
    let puts = [
        Put::Bytes(3),
        Put::Bytes(2),
        Put::Failed,
        Put::Bytes(1),
        Put::Failed,
        Put::Bytes(4),
    ];
    check_sink(&rt, &TURNS, &puts);
}

// The seventeenth interruption in a row is a fault.
#[test]
fn the_seventeenth_interruption_is_a_fault(rt: HostRuntime) {
    let mut tries = [Turn::Interrupted; 18];
    tries[17] = Turn::Count(1);
    check_source(&rt, &tries, &[Taken::Failed, Taken::Bytes(1)], 0);
    check_source(&rt, &tries[1..], &[Taken::Bytes(1)], 0);
    check_sink(&rt, &tries, &[Put::Failed, Put::Bytes(1)]);
    check_sink(&rt, &tries[1..], &[Put::Bytes(1)]);
}

#[test]
fn memory_gives_and_takes_bytes(rt: HostRuntime) {
    let mut source = MemSource::new(rt.alloc(), b"some bytes", 7, None).expect(&rt, "memory");
    let mut piece = [0; 16];
    assert!(rt; source.take(&mut piece) == Taken::Bytes(7));
    assert!(rt; source.left() == b"tes".as_slice());
    let mut sink = MemSink::new(rt.alloc(), 5).expect(&rt, "memory");
    assert!(rt; sink.put(&piece[..7]) == Put::Bytes(5));
    assert!(rt; sink.bytes() == b"some ".as_slice());
}
