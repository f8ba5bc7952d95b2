// A list of watchers, and telling it of an event.
ghost use Rattle.std.specs.Prelude.{◌≡◌, ◌++◌, ◌∷◌, [], IsErr, OnOk, false, true};
ghost use Rattle.stair_rack.specs.Watching.{HearsOne};
ghost use Rattle.stair_rack.specs.declared.watcher.Next.{Next};
ghost use Rattle.stair_watch.specs.WatcherList.{AllStay, Tells};

use stair_rack::{Event, Next, Watcher};
use std::alloc::AllocError;

/// Puts a watcher that hasn't left behind the others. The only error is lack of memory: the list is then as it was, and the
/// watcher is dropped.
pub fn add(
    watchers: &mut Vec<Box<dyn Watcher>>,
    watcher: Box<dyn Watcher>,
) -> Result<(), AllocError>
    requires others { AllStay hears watchers.old.items }
    requires stays { (hears watcher).left ≡ false }
    ensures added { OnOk result (watchers.new.items ≡ watchers.old.items ++ watcher ∷ []) }
    ensures refused { IsErr result → watchers.new.items ≡ watchers.old.items }
    // None of those in the list has left, so they may be told of an event.
    ensures stay { AllStay hears watchers.new.items }
{
    Ok(watchers.push(watcher)?)
}

/// Tells each watcher of the event, in order. One that answers `Leave` is taken out and dropped, and the others keep their
/// order. It takes no memory.
pub fn tell(watchers: &mut Vec<Box<dyn Watcher>>, event: Event)
    requires { AllStay hears watchers.old.items }
    ensures does { Tells hears event watchers.old.items watchers.new.items }

    // None of those that are left has left, so they may be told of the next event.
    ensures stay { AllStay hears watchers.new.items }
{
    let mut at = 0;
    while at < watchers.len() {
        match notify(&mut watchers[at], event) {
            Next::Stay => at += 1,
            Next::Leave => drop(watchers.remove(at)),
        }
    }
}

// The call of one watcher, whatever its type.
fn notify(watcher: &mut Box<dyn Watcher>, event: Event) -> Next
    requires { (hears watcher.old).left ≡ false }
    ensures stays { result ≡ Next.Stay → (hears watcher.new).left ≡ false }
    ensures leaves { result ≡ Next.Leave → (hears watcher.new).left ≡ true }
    ensures heard { HearsOne hears event watcher.old watcher.new }
{
    watcher.notice(event)
}
