//! The laws of watchers that are told in order.

ghost use Rattle.std.specs.Prelude.{◌≡◌, ◌↔◌, ℕ, Bool, List, ◌++◌, Option, length};
ghost use Rattle.stair_rack.specs.Watching.{RemainingQuota, WatcherView, watcher_view};
ghost use Rattle.stair_rack.specs.declared.watcher.Event.{Event};
ghost use Rattle.stair_rack.specs.declared.watcher.EventKind.{EventKind};
ghost use Rattle.stair_watch.specs.WatcherList.{AllStay, AreLeft, Tells, TellsAll};

/// Who is left of a list of watchers after some events, and what each of them heard. It does nothing.
pub fn watch_laws<W>()
    // told one event after the other, those are left that are told on after these, each with all that it heard
    ensures left { (view : WatcherView W) (events : List Event) (old new : List W) → AllStay view old →
        TellsAll view events old new → AreLeft view events old new }
    // and none of them has left
    ensures stay { (view : WatcherView W) (events : List Event) (old new : List W) → AllStay view old →
        TellsAll view events old new → AllStay view new }
    // they are as many as before exactly where none left at the event
    ensures as_many { (view : WatcherView W) (event : Event) (old new : List W) →
        (tells : Tells view event old new) → (length new ≡ length old) ↔ AllStay view tells.heard }
    // stretches of events join
    ensures joined { (view : WatcherView W) (before after : List Event) (old mid new : List W) →
        TellsAll view before old mid → TellsAll view after mid new → TellsAll view (before ++ after) old new }
{}

/// What a watcher tells has four members, and nothing else. It does nothing.
pub fn heard_laws<W>()
    // given member by member, it has these members
    ensures members { (told : W → Option (List Event)) (count : W → EventKind → ℕ) (left : W → Bool) (remaining_quota : W → Option RemainingQuota)
        (w : W) → ((watcher_view told count left remaining_quota w).told ≡ told w)
        × ((watcher_view told count left remaining_quota w).count ≡ count w)
        × ((watcher_view told count left remaining_quota w).left ≡ left w)
        × ((watcher_view told count left remaining_quota w).remaining_quota ≡ remaining_quota w) }
    // and whatever it tells is given so
    ensures whole { (view : WatcherView W) →
        view ≡ watcher_view (λ w. (view w).told) (λ w. (view w).count) (λ w. (view w).left) (λ w. (view w).remaining_quota) }
{}
