// What a look at a medium that is to be admitted tells a member.
ghost use Rattle.std.specs.Prelude.{◌≡◌, ◌<◌, max, slice_set};
ghost use Rattle.stair_super.specs.Superblock.{mark_in};
ghost use Rattle.stair_super.specs.declared.mark.Mark.TheVariants as mark;
ghost use Rattle.stair_member.specs.Membership.{IsMembership};
ghost use Rattle.stair_member.specs.Seeing.{Sees, draw_in};

use crate::look::next_place;
use crate::member::Member;
use stair_super::Super;

impl Member {
    /// Takes in what was read of the medium in a slot that is to be admitted: the superblocks in its two places, of whatever
    /// array and slot, `None` where there is none.
    ///
    /// The next draw will be above theirs, so that none hides those of the admission, and the slot's next superblock goes to
    /// the place that doesn't hold the newer one. Without it the laws of epochs don't speak of the admission.
    pub fn observe(&mut self, slot: u8, first: Option<Super>, second: Option<Super>)
        requires below { slot < self.old.array.geometry.n }
        requires down { mark_in self.old.array slot ≡ mark.Down }
        ensures is { Sees slot first second self.old self.new }
        ensures rules { IsMembership self.new }
    {
        self.see_draw(draw_of(&first));
        self.see_draw(draw_of(&second));
        self.set_place(slot, next_place(first, second));
    }

    // A draw is seen.
    fn see_draw(&mut self, draw: u64)
        ensures is { self.new ≡ record self.old { drawn = max self.old.drawn draw } }
        ensures rules { IsMembership self.new }
    {
        if draw > self.drawn {
            self.drawn = draw;
        }
    }

    // The slot's next superblock goes to this place.
    fn set_place(&mut self, slot: u8, place: u32)
        requires slot { slot < 32 }
        requires place { place < 2 }
        ensures is { self.new ≡ record self.old { places = slice_set self.old.places slot place } }
        ensures rules { IsMembership self.new }
    {
        self.places[usize::from(slot)] = place;
    }
}

fn draw_of(block: &Option<Super>) -> u64
    ensures { result ≡ draw_in block.now }
{
    match block {
        Some(block) => block.draw(),
        None => 0,
    }
}
