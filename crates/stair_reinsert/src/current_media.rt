//! Why a stale medium is never taken for a live one.

ghost use Rattle.std.specs.Prelude.{◌≡◌, ◌≤◌, ℕ, List, None, Some};
ghost use Rattle.stair_rack.specs.Answers.{Ran};
ghost use Rattle.stair_rack.specs.History.{Happening};
ghost use Rattle.stair_rack.specs.Media.{Image};
ghost use Rattle.stair_super.specs.Superblock.{Superblock};
ghost use Rattle.stair_member.specs.Counting.{AllBut};
ghost use Rattle.stair_member.specs.Current.{IsCurrent, IsLive, Serves};
ghost use Rattle.stair_state.specs.Holding.{CurrentMedia, IsConsistentBy, IsConsistentSince, IsCurrentMedium, OfAdmitted};
ghost use Rattle.stair_state.specs.Reassembly.{IsBorne, IsConsistent, IsReassembly, Location};
ghost use Rattle.stair_state.specs.Represents.{Encodings, no_write};
ghost use Rattle.stair_state.specs.State.{State, without_seats};
ghost use Rattle.stair_state.specs.Tolerance.{IsToleratedAlone};
ghost use Rattle.stair_reinsert.specs.Together.{HasOneMedium};

/// Images that are consistent by the holders of their chunks, however their media lie. It does nothing.
pub fn current_medium_laws()
    // such an image is consistent: each reassembly within tolerance represents the state, epochs and joined numbers agree, and
    // every epoch was drawn on a slot that serves
    ensures consistent { (s : State) (encodings : Encodings s) (current_media : CurrentMedia) (since : ℕ)
        (image : Image) → IsConsistentBy s encodings current_media since image →
        IsConsistent s encodings image }
    // no epoch before the one that stands is current, whatever media are put together
    ensures recent { (s : State) (encodings : Encodings s) (current_media : CurrentMedia) (since : ℕ)
        (image to : Image) (current : Superblock) →
        IsConsistentBy s encodings current_media since image → IsReassembly image to →
        IsToleratedAlone s.geometry to → IsCurrent s.geometry to current →
        since ≤ current.array.epoch }
    // and a slot is live only with its holder
    ensures live { (s : State) (encodings : Encodings s) (current_media : CurrentMedia) (since : ℕ)
        (image to : Image) (current : Superblock) (j : ℕ) →
        IsConsistentBy s encodings current_media since image → IsReassembly image to →
        IsToleratedAlone s.geometry to → IsCurrent s.geometry to current →
        IsLive s.geometry to current j → IsCurrentMedium s.geometry current_media j ((to j).cell) }
    // where all holders but m have reached an epoch, wherever they lie, no earlier one is current
    ensures none_earlier { (s : State) (encodings : Encodings s) (current_media : CurrentMedia)
        (since epoch : ℕ) (image to : Image) (current : Superblock) →
        IsConsistentBy s encodings current_media since image →
        AllBut s.geometry.n s.geometry.m (λ j. (joined : ℕ) → current_media j ≡ Some joined →
        OfAdmitted s.geometry image joined (λ x. epoch ≤ x.array.epoch) j) →
        IsReassembly image to → IsToleratedAlone s.geometry to →
        IsCurrent s.geometry to current → epoch ≤ current.array.epoch }
    // whatever the outside does, media put back too, and calls that write nothing leave a rack so, by the same holders, since
    // the same epoch, marks and joined numbers aside
    ensures kept { (s : State) (current_media : CurrentMedia) (since : ℕ) (old new : List Happening) →
        IsConsistentSince s current_media since old → Ran no_write old new →
        IsConsistentSince (without_seats s) current_media since new }
{}

/// Two reassemblies of one consistent image, each within tolerance. It does nothing.
pub fn together_laws()
    // Where each slot that serves in one of them has the epoch that is current in it, and no medium of the image has a greater
    // one, that epoch is current in the other.
    ensures current { (s : State) (encodings : Encodings s) (image a b : Image)
        (first second : Superblock) → IsConsistent s encodings image → IsReassembly image a →
        IsReassembly image b → IsToleratedAlone s.geometry a → IsToleratedAlone s.geometry b →
        IsCurrent s.geometry a first → IsCurrent s.geometry b second →
        ((j : ℕ) (serves : Serves (λ k. (a k).size ≡ None) s.geometry a first j) →
        serves.live.super.array.epoch ≡ first.array.epoch) →
        ((j : ℕ) (place : Location) (x : Superblock) → IsBorne s.geometry image j place x →
        x.array.epoch ≤ first.array.epoch) →
        second.array.epoch ≡ first.array.epoch }
    // a slot that is live in both has one medium in both
    ensures live { (s : State) (encodings : Encodings s) (image a b : Image)
        (first second : Superblock) (j : ℕ) → IsConsistent s encodings image →
        IsReassembly image a → IsReassembly image b → IsToleratedAlone s.geometry a →
        IsToleratedAlone s.geometry b → IsCurrent s.geometry a first →
        IsCurrent s.geometry b second → IsLive s.geometry a first j →
        IsLive s.geometry b second j → HasOneMedium image a b j }
{}
