// Putting bytes into a sink.
ghost use Rattle.stair_watch.specs.Lines.{PutsFront};

use stair_rack::{Put, Sink};

/// Puts the bytes into the sink, in order, until all are there or it fails, and tells how many it took: fewer than there are
/// exactly where it failed.
pub fn put_until_fault<K: Sink>(sink: &mut K, bytes: &[u8]) -> usize
    ensures { PutsFront K.held K.faults result bytes.now sink.old sink.new }
{
    let mut put = 0;
    while put < bytes.len() {
        match sink.put(&bytes[put..]) {
            Put::Bytes(count) => put += count,
            Put::Failed => return put,
        }
    }
    put
}
