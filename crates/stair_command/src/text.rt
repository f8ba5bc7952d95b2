ghost use Rattle.std.specs.Prelude.{◌≡◌};
ghost use Rattle.stair_command.specs.Transfers.{wrote_line as line_of_wrote};

use stair_watch::Line;

/// The line for so many blocks that were written.
pub fn wrote_line(count: u64) -> Line
    ensures { result ≡ line_of_wrote count }
{
    let mut line = Line::new();
    line.push_named(b"wrote ", count);
    line.push(b" blocks\n");
    line
}
