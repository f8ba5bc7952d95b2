//! The laws of sectors that are gathered.

ghost use Rattle.std.specs.Prelude.{◌≡◌, ◌∷◌, ◌+◌, ℕ, List, [], length};
ghost use Rattle.stair_image.specs.Seal.{sealed};
ghost use Rattle.stair_filerack.specs.Files.{SyncsAll, WritesSector};
ghost use Rattle.stair_filerack.specs.Gathered.{WritesFollowing, WroteFrom, all_sealed};
ghost use Rattle.stair_filerack.specs.Slot.{HeldFile};

use std::io::{Seek, Write};

/// What writes and a sync of a slot come to, of a file of which nothing is pending. It does nothing.
pub fn gathering_laws<T: Write + Seek>()
    // a write and its sync: the file was at the sector, and then took exactly the sealed payload
    ensures one { (sector : ℕ) (payload : List ℕ) (old mid new : HeldFile T) →
        old.pending ≡ [] →
        WritesSector T.stream_position T.contents sector payload old mid →
        SyncsAll T.contents mid new →
        WroteFrom T.stream_position T.contents sector 1 (sealed sector payload) old new }
    // writes of following sectors and their sync: the file was at the first, and then took exactly the sealed payloads, in order
    ensures following { (sector : ℕ) (payload : List ℕ) (payloads : List (List ℕ))
        (old mid new : HeldFile T) → old.pending ≡ [] →
        WritesFollowing T.stream_position T.contents sector (payload ∷ payloads) old mid →
        SyncsAll T.contents mid new →
        WroteFrom T.stream_position T.contents sector (length payloads + 1)
        (all_sealed sector (payload ∷ payloads)) old new }
{}
