//! The laws of racks: what a crash may leave, when a slot is gone, and what a stretch of a history tells.

ghost use Rattle.std.specs.Prelude.{◌≡◌, ◌≢◌, ◌⊎◌, ℕ, true, false, IsTrue, IsSome, List, [], ◌∷◌, None, Some};
ghost use Rattle.stair_rack.specs.Sector.{Cell, Good, Damaged, settled, content, MayLeave};
ghost use Rattle.stair_rack.specs.Media.{Image, has_sector};
ghost use Rattle.stair_rack.specs.History.{
  Happening,
  Made,
  Called,
  SlotCall,
  Attach,
  Sectors,
  Read,
  Write,
  Sync,
  IsTidy,
  slot_state,
  stopped,
};
ghost use Rattle.stair_rack.specs.Crash.{CrashMayLeave, image_now};
ghost use Rattle.stair_rack.specs.Answers.{
  Calls,
  IsAnswered,
  IsGoneInRange,
  IsHistory,
  IsNoAttach,
  Ran,
  any_call,
  is_good,
  is_ready,
  read_answer,
};
ghost use Rattle.stair_rack.specs.Offline.{ButForOutside, IsHeld, IsOffline, WasPulled};
ghost use Rattle.stair_rack.specs.Placed.{IsSlot};
ghost use Rattle.stair_rack.specs.Reading.{WasRead};
ghost use Rattle.stair_rack.specs.Stretch.{NoneWritten, NothingDamaged, WasAnswered};
ghost use Rattle.stair_rack.specs.declared.rack.Reply.{Reply};
ghost use Rattle.stair_rack.specs.declared.rack.Got.{Got};

/// What a crash may leave of a rack. It does nothing.
pub fn crash_laws()
    // the image now is one that a crash may leave
    ensures now { (h : List Happening) → CrashMayLeave h (image_now h) }
    // it leaves any cell that it may leave of a sector, whatever it leaves of the others
    ensures each_alone { (h : List Happening) (image : Image) (j k : ℕ) (cell : Cell) →
        CrashMayLeave h image →
        MayLeave ((slot_state h j).sector k) cell →
        (other : Image) × CrashMayLeave h other × ((other j).cell k ≡ cell) }
    // a settled sector may be left as its content alone
    ensures settled { (h : List Happening) (image : Image) (j k : ℕ) (cell : Cell) →
        CrashMayLeave h image →
        (slot_state h j).sector k ≡ settled cell → (image j).cell k ≡ cell }
    // of a device that was synced a crash leaves what reads found
    ensures synced { (h : List Happening) (image : Image) (j k : ℕ) →
        CrashMayLeave (Called j (Sync Reply.Done) ∷ h) image →
        (image j).cell k ≡ content ((slot_state h j).sector k) }
    // a sector that was written reads as these bytes, whatever it held
    ensures written { (h : List Happening) (j k : ℕ) (bytes : List ℕ) →
        content ((slot_state (Called j (Write k bytes Reply.Done) ∷ h) j).sector k) ≡ Good bytes }
    // nothing can be read past the end of a medium, now or in what a crash leaves
    ensures past_end { (h : List Happening) (image : Image) (j k : ℕ) → IsHistory h →
        CrashMayLeave h image → has_sector (image j).size k ≡ false → (image j).cell k ≡ Damaged }
    // a rack that is made over what a crash left holds it, settled
    ensures made_again { (h : List Happening) (image : Image) (j k : ℕ) → IsHistory h →
        CrashMayLeave h image →
        (slot_state (Made image ∷ []) j).sector k ≡ settled ((image j).cell k) }
{}

/// What an honest rack answers within a session. It does nothing.
pub fn session_laws()
    // a slot that the session holds is gone in range only where it is offline
    ensures offline { (before h : List Happening) (j : ℕ) (call : SlotCall) → IsHeld before h j →
        IsAnswered h j call → IsGoneInRange h j call → IsOffline before h j }
    // a slot that an attach found is held in each session that began before, and stays so
    ensures held { (before h new : List Happening) (j : ℕ) → Ran any_call before h →
        IsAnswered h j (Attach Reply.Done) → Ran any_call (Called j (Attach Reply.Done) ∷ h) new →
        IsHeld before new j }
    // an attach is answered as gone where the slot holds no medium or the rack is stopped
    ensures attach { (h : List Happening) (j : ℕ) → IsAnswered h j (Attach Reply.Gone) →
        ((slot_state h j).size ≡ None) ⊎ IsTrue (stopped h) }
    // a slot that was gone in range is gone to every call until it is attached
    ensures lasts { (h new : List Happening) (j : ℕ) (call : SlotCall) → IsAnswered h j call →
        IsGoneInRange h j call →
        Ran (IsNoAttach j) (Called j call ∷ h) new → is_ready new j ≡ false }
    // the history of an honest rack goes on as one
    ensures history { (old new : List Happening) → IsHistory old → Ran any_call old new →
        IsHistory new }
    ensures called { (old new : List Happening) (j : ℕ) (call : SlotCall) → IsHistory old →
        Calls old new j call → IsHistory new }
    // nothing can be read past the end of a medium, and an attached slot holds the medium that was found
    ensures tidy { (h : List Happening) → IsHistory h → IsTidy h }
    // of an attached slot `sectors` answers the size of its medium
    ensures sectors { (h : List Happening) (j n : ℕ) → IsHistory h →
        (slot_state h j).attached ≡ true → IsAnswered h j (Sectors n) →
        (slot_state h j).size ≡ Some n }
    // told or not, `sectors` answers the size of the medium that the slot's last attach found
    ensures sectors_found { (old mid now new : List Happening) (j n : ℕ) →
        Calls old mid j (Attach Reply.Done) → Ran (IsNoAttach j) mid now →
        Calls now new j (Sectors n) → (slot_state mid j).size ≡ Some n }
    // and 0 where that was gone
    ensures sectors_gone { (old mid now new : List Happening) (j n : ℕ) →
        Calls old mid j (Attach Reply.Gone) → Ran (IsNoAttach j) mid now →
        Calls now new j (Sectors n) → n ≡ 0 }
    // a stopped rack stays stopped
    ensures stopped { (h new : List Happening) → IsTrue (stopped h) → Ran any_call h new →
        IsTrue (stopped new) }
{}

/// What a stretch of a history tells of its end and of its moments. It does nothing.
pub fn stretch_laws()
    // what stands on the disk goes on so while its slot isn't written, but for the outside
    ensures stands { (before old new : List Happening) (j k : ℕ) (cell : Cell) →
        Ran any_call old new → NoneWritten (IsSlot j) old new →
        ButForOutside before old j k (λ s. s ≡ settled cell) →
        ButForOutside before new j k (λ s. s ≡ settled cell) }
    // a crash leaves it, unless the medium was pulled or the sector is damaged
    ensures left { (before h : List Happening) (image : Image) (j k : ℕ) (cell : Cell) →
        CrashMayLeave h image → ButForOutside before h j k (λ s. s ≡ settled cell) →
        WasPulled before h j ⊎ (((image j).cell k ≡ Damaged) ⊎ ((image j).cell k ≡ cell)) }
    // where no sector became damaged it stands, or the medium was pulled
    ensures undamaged { (old new : List Happening) (j k : ℕ) (cell : Cell) →
        Ran any_call old new → NothingDamaged old new → IsSome (slot_state old j).size →
        content ((slot_state old j).sector k) ≢ Damaged →
        ButForOutside old new j k (λ s. s ≡ settled cell) →
        WasPulled old new j ⊎ ((slot_state new j).sector k ≡ settled cell) }
    // told or not, a read is answered as its slot stands at the end of the call
    ensures read { (old new : List Happening) (j k : ℕ) (answer : Got) →
        Calls old new j (Read k answer) → answer ≡ read_answer new j k }
    // a read that was good was of a slot in use, whose sector held the bytes
    ensures read_good { (old new : List Happening) (j k : ℕ) (bytes : List ℕ) →
        Calls old new j (Read k Got.Good) → content ((slot_state new j).sector k) ≡ Good bytes →
        WasRead (λ cell. cell ≡ Good bytes) old new j k }
    // a read that was bad was of a slot in use, whose sector held nothing that can be read
    ensures read_bad { (old new : List Happening) (j k : ℕ) → IsHistory old →
        Calls old new j (Read k Got.Bad) → WasRead (λ cell. is_good cell ≡ false) old new j k }
    // a read that was gone was of a slot that isn't in use
    ensures read_gone { (old new : List Happening) (j k : ℕ) →
        Calls old new j (Read k Got.Gone) → is_ready new j ≡ false }
    // a slot that is in use, and wasn't attached since, has the medium that it had
    ensures unpulled { (old new : List Happening) (j : ℕ) → Ran (IsNoAttach j) old new →
        is_ready new j ≡ true → ¬ WasPulled old new j }
    // a call is told in its stretch, unless the rack is stopped
    ensures answered { (old new : List Happening) (j : ℕ) (call : SlotCall) →
        Calls old new j call → WasAnswered j call old new ⊎ IsTrue (stopped new) }
{}
