ghost use Rattle.std.specs.Prelude.{Some};

use stair_member::Why;
use std::fmt;

/// A blank and a count, for each of the first `n` counts.
#[derive(Drop)]
pub(crate) struct ListedCounts {
    pub(crate) counts: [u8; 32],
    pub(crate) n: u8,
}

impl fmt::Display for ListedCounts {
    ghost use Rattle.stair_status.specs.Status.{counts_text};

    ghost output = { λ listed. Some (counts_text listed.counts listed.n) };

    fn fmt<W: fmt::Write>(&self, f: &mut fmt::Formatter<W>) -> fmt::Result {
        for count in &self.counts[..usize::from(self.n).min(32)] {
            write!(f, " {count}")?;
        }
        Ok(())
    }
}

/// Each slot that isn't live, and why.
#[derive(Drop)]
pub(crate) struct ListedReasons {
    pub(crate) whys: [Why; 32],
}

impl fmt::Display for ListedReasons {
    ghost use Rattle.stair_status.specs.Status.{reasons_text};

    ghost output = { λ listed. Some (reasons_text listed.whys 32) };

    fn fmt<W: fmt::Write>(&self, f: &mut fmt::Formatter<W>) -> fmt::Result {
        let mut is_first = true;
        for slot in 0..32usize {
            let reason = self.whys[slot];
            if reason != Why::Here {
                if !is_first {
                    write!(f, ", ")?;
                }
                is_first = false;
                write!(f, "{slot} {}", reason.words())?;
            }
        }
        Ok(())
    }
}
