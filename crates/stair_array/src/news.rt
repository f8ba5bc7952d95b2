// What the calls of an array told of it.
ghost use Rattle.std.specs.Prelude.{◌≡◌, ◌↔◌, ◌<◌, ℕ, IsTrue};
ghost use Rattle.std.specs.List.{slice_get};
ghost use Rattle.stair_model.specs.Slots.{HasSlot, IsSlotSet};
ghost use Rattle.stair_super.specs.Superblock.{mark_in};
ghost use Rattle.stair_super.specs.declared.mark.Mark.TheVariants.{Down};
ghost use Rattle.stair_array.specs.News.{AddsFallen, Fell, events_in, no_news, other_events};

use stair_base::Slots;
use stair_member::Member;
use stair_rack::Event;
use stair_super::Mark;

/// What an opening and the calls since did, refused ones included; where the news were cleared, what the calls since then
/// did.
///
/// Whoever tells events clears the news before each step.
#[derive(Clone, Copy, Debug, PartialEq, Eq)]
pub struct News {
    /// The slots that were Down after one of these calls, and not before it.
    pub fenced: Slots,
    /// The stripe that was scrubbed last, and how many of its cells were repaired. Here and below a call that was refused
    /// doesn't count.
    pub repaired: Option<(u32, u16)>,
    /// The slot that was admitted last.
    pub admitted: Option<u8>,
    /// The slot that was promoted last.
    pub promoted: Option<u8>,
}

impl News {
    // No news.
    pub(crate) fn none() -> News
        ensures { result ≡ no_news }
    {
        News {
            fenced: Slots::empty(),
            repaired: None,
            admitted: None,
            promoted: None,
        }
    }

    // Adds the slots that became Down in a call.
    pub(crate) fn add_fallen(&mut self, before: &Member, after: &Member)
        ensures { AddsFallen before.now.array after.now.array self.old self.new }
    {
        self.fenced = self.fenced.union(&fallen(before, after));
    }

    /// Event number `at`, counted from 0; `None` past the last one. First come the slots that became Down, in rising order,
    /// and then the repair, where a cell was repaired, the admission and the promotion.
    pub fn event(&self, at: u8) -> Option<Event>
        ensures { result ≡ slice_get (events_in self.now) at }
    {
        let mut left = at;
        for slot in 0..32 {
            if self.fenced.has(slot) {
                if left == 0 {
                    return Some(Event::Fenced { slot });
                }
                left -= 1;
            }
        }
        self.other_event(left)
    }

    // Event number `at` of those that come after the slots that became Down.
    fn other_event(&self, at: u8) -> Option<Event>
        ensures { result ≡ slice_get (other_events self.now) at }
    {
        let mut left = at;
        if let Some((stripe, cells)) = self.repaired {
            if cells > 0 {
                if left == 0 {
                    return Some(Event::Repaired { stripe, cells });
                }
                left -= 1;
            }
        }
        if let Some(slot) = self.admitted {
            if left == 0 {
                return Some(Event::Admitted { slot });
            }
            left -= 1;
        }
        match self.promoted {
            Some(slot) if left == 0 => Some(Event::Promoted { slot }),
            _ => None,
        }
    }
}

// The slots that became Down.
fn fallen(before: &Member, after: &Member) -> Slots
    ensures members { (j : ℕ) → HasSlot result j ↔
        ((j < 32) × Fell before.now.array after.now.array j) }
    ensures well_formed { IsSlotSet result }
{
    let mut fallen = Slots::empty();
    for slot in 0..32 {
        if is_down(after, slot) && !is_down(before, slot) {
            fallen.add(slot);
        }
    }
    fallen
}

// Whether the slot, a number below 32, is Down.
fn is_down(member: &Member, slot: u8) -> bool
    requires { slot < 32 }
    ensures { IsTrue result ↔ (mark_in member.now.array slot ≡ Down) }
{
    let marks = member.marks();
    marks[usize::from(slot)] == Mark::Down
}
