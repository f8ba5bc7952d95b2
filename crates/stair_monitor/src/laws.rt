//! Laws of the lines of events.

ghost use Rattle.std.specs.Prelude.{◌≡◌, ◌⊎◌, ◌≤◌, ◌++◌, ℕ, List, length};
ghost use Rattle.stair_rack.specs.declared.watcher.Event.{Event};
ghost use Rattle.stair_watch.specs.Lines.{event_line, newline};
ghost use Rattle.stair_script.specs.Events.{IsEvent, SpellsEvent, event_text};

/// States the laws of the lines of events. It does nothing.
///
/// - Bytes spell at most one event, and whether they spell one is decided.
/// - The events that bytes spell are those within the bounds. Their bytes are exactly those that are printed, at most
///   37.
/// - A `Printer` and a `Quota` put out these bytes and an end of line for an event.
pub fn event_laws()
    ensures one_event { (bytes : List ℕ) (a b : Event) → SpellsEvent bytes a → SpellsEvent bytes b →
        a ≡ b }
    ensures decided { (bytes : List ℕ) → ((said : Event) × SpellsEvent bytes said)
        ⊎ ((said : Event) → ¬ SpellsEvent bytes said) }
    ensures printing { (said : Event) → IsEvent said → SpellsEvent (event_text said) said }
    ensures range { (bytes : List ℕ) (said : Event) → SpellsEvent bytes said → IsEvent said }
    ensures text { (bytes : List ℕ) (said : Event) → SpellsEvent bytes said → bytes ≡ event_text said }
    ensures longest { (bytes : List ℕ) (said : Event) → SpellsEvent bytes said → length bytes ≤ 37 }
    ensures printed { (said : Event) → event_line said ≡ event_text said ++ newline }
{}
