// Images of which media were lost or damaged, and what covers the loss.
ghost use Rattle.std.specs.Prelude.{◌≡◌, ◌<◌, ◌⊎◌, ℕ, None, List};
ghost use Rattle.stair_model.specs.CellSet.{CellSet, HasCell};
ghost use Rattle.stair_model.specs.Coverage.{IsCovered};
ghost use Rattle.stair_model.specs.Device.{cell_sector, gate_sector};
ghost use Rattle.stair_model.specs.Geometry.{Geometry, IsWithinLimits, block_count};
ghost use Rattle.stair_model.specs.Slots.{Slots, HasSlot};
ghost use Rattle.stair_model.specs.Stripe.{cell};
ghost use Rattle.stair_rack.specs.Answers.{IsHistory};
ghost use Rattle.stair_rack.specs.Crash.{CrashMayLeave};
ghost use Rattle.stair_rack.specs.History.{Happening};
ghost use Rattle.stair_rack.specs.Media.{Image};
ghost use Rattle.stair_rack.specs.Sector.{Damaged};
ghost use Rattle.stair_super.specs.Superblock.{Superblock, joined_at, mark_at};
ghost use Rattle.stair_super.specs.declared.mark.Mark.TheVariants.{Live};
ghost use Rattle.stair_member.specs.Current.{IsCurrent, IsFailed, IsLive, IsLost};
ghost use Rattle.stair_member.specs.Reserve.{IsOrderly, MayStand};
ghost use Rattle.stair_member.specs.Superblocks.{IsOnlyIdentity};
ghost use Rattle.stair_state.specs.Blocks.{Codewords};
ghost use Rattle.stair_state.specs.Degraded.{IsDegraded};
ghost use Rattle.stair_state.specs.Forms.{AreStill, HasGate, IsIdle, IsUncommitted, RepresentsBy};
ghost use Rattle.stair_state.specs.Represents.{Encodings, ImageRepresents, OnlyShrinks, Represents, RepresentsAlone};
ghost use Rattle.stair_state.specs.State.{State, without_seats};
ghost use Rattle.stair_state.specs.Tolerance.{HasJournal, IsStripeCovered, IsToleratedAlone};

/// Images of which media were taken away or cells damaged. It does nothing.
pub fn degraded_laws()
    ensures again { (a b c : Image) → IsDegraded a b → IsDegraded b c → IsDegraded a c }
    // a form over live slots holds over fewer of them, one of whose gates isn't lost, where their cells from the gate
    // on are as they were or damaged
    ensures still { (g : Geometry) (old new : Codewords) (was is : Image) (more fewer : Slots) →
        RepresentsBy g old new (HasSlot more) was →
        ((j : ℕ) → HasSlot fewer j → HasSlot more j) → AreStill (HasSlot fewer) was is →
        HasGate (HasSlot fewer) is → RepresentsBy g old new (HasSlot fewer) is }
    // idle and uncommitted hold over fewer of them whatever becomes of their gates
    ensures still_idle { (g : Geometry) (words : Codewords) (was is : Image)
        (more fewer : Slots) → IsIdle g words (HasSlot more) was →
        ((j : ℕ) → HasSlot fewer j → HasSlot more j) → AreStill (HasSlot fewer) was is →
        IsIdle g words (HasSlot fewer) is }
    ensures still_uncommitted { (g : Geometry) (old new : Codewords) (was is : Image)
        (more fewer : Slots) → IsUncommitted g old new (HasSlot more) was →
        ((j : ℕ) → HasSlot fewer j → HasSlot more j) → AreStill (HasSlot fewer) was is →
        IsUncommitted g old new (HasSlot fewer) is }
    // a rack over what a crash left of one that represents a state represents it
    ensures left { (s : State) (h : List Happening) (image : Image) → IsHistory h →
        Represents s h → CrashMayLeave h image → RepresentsAlone s image }
    // so does one over a degraded image of that which is within tolerance, marks and joined numbers aside
    ensures lesser { (s : State) (h : List Happening) (more less : Image) → IsHistory h →
        Represents s h → CrashMayLeave h more → IsDegraded more less →
        IsToleratedAlone s.geometry less → RepresentsAlone (without_seats s) less }
    // where one array stands alone no degraded image is within another one's tolerance
    ensures identity { (g other : Geometry) (more less : Image) → IsOnlyIdentity g more →
        IsDegraded more less → IsToleratedAlone other less → other ≡ g }
    // of what a crash may leave of a rack that represents a state no loss of media adds a live slot
    ensures shrinks { (s : State) (h : List Happening) (image : Image) → Represents s h →
        CrashMayLeave h image → OnlyShrinks s.geometry image }
    // where no other array may stand, what is live in a lesser image whose current superblock names an earlier epoch
    // is marked Live by that of the other, with the same joined number
    ensures live_as_current { (g : Geometry) (more less : Image) (current older : Superblock) →
        IsOrderly g more → OnlyShrinks g more →
        ((other : Geometry) → MayStand other more → other ≡ g) → IsDegraded more less →
        IsToleratedAlone g less → IsCurrent g more current → IsCurrent g less older →
        older.array.epoch < current.array.epoch → (j : ℕ) → IsLive g less older j →
        (mark_at current j ≡ Live) × (joined_at older j ≡ joined_at current j) }
{}

/// What coverage gives, where these slots are offline. It does nothing.
pub fn coverage_laws()
    // a pattern whose cells all lie on failed slots or are damaged is covered
    ensures exactly { (offline : Slots) (g : Geometry) (image : Image) (current : Superblock)
        (t : ℕ) (erased : CellSet) → IsStripeCovered (HasSlot offline) g image current t →
        ((i j : ℕ) → HasCell erased i j → (i < g.r) × (j < g.n)
        × (IsFailed (HasSlot offline) g image current j
        ⊎ ((image j).cell (cell_sector g t i) ≡ Damaged))) →
        IsCovered g erased }
    // the gate of a slot that has the journal isn't lost
    ensures gate { (offline : Slots) (g : Geometry) (image : Image) (current : Superblock)
        (j : ℕ) → HasJournal (HasSlot offline) g image current j →
        ¬ IsLost ((image j).cell gate_sector) }
    // an image represents a state by any encodings of its blocks
    ensures any { (s : State) (a b : Encodings s) (image : Image) → IsWithinLimits s.geometry →
        ImageRepresents s a image → ImageRepresents s b image }
    // an image within tolerance represents one list of blocks, where no change is in doubt
    ensures determined { (s other : State) (a : Encodings s) (b : Encodings other)
        (image : Image) (k : ℕ) → IsWithinLimits s.geometry → s.in_doubt ≡ None →
        other.in_doubt ≡ None → other.geometry ≡ s.geometry → ImageRepresents s a image →
        ImageRepresents other b image → IsToleratedAlone s.geometry image →
        k < block_count s.geometry → s.content.blocks k ≡ other.content.blocks k }
{}
