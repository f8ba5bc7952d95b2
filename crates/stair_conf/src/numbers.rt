ghost use Rattle.std.specs.Prelude.{◌≡◌};

use std::marker::Model;

/// Numbers in the order of their words.
///
/// Contracts see the list of the numbers, each below 2^64.
#[derive(Debug, Drop)]
pub struct Numbers {
    items: Vec<u64>,
}

impl Model for Numbers {
    ghost use Rattle.std.specs.Prelude.{ℕ, ◌^◌, ◌<◌, List, All};

    ghost Value = { List ℕ };

    ghost view = { λ numbers. numbers.items.items };

    ghost invariant = { λ numbers. All (λ n. n < 2 ^ 64) numbers.items.items };
}

impl Numbers {
    ghost use Rattle.std.specs.Prelude.{◌≡◌, ◌^◌, ◌<◌, All};

    /// These numbers. It takes no memory.
    pub fn new(items: Vec<u64>) -> Numbers
        ensures { result ≡ items.items }
    {
        Numbers { items }
    }

    /// The numbers, in their order.
    pub fn as_slice(&self) -> &[u64]
        ensures value { result.now ≡ self.now }
        ensures fit { All (λ n. n < 2 ^ 64) self.now }
    {
        self.items.as_slice()
    }

    /// The numbers, in their order. It takes no memory.
    pub fn into_vec(self) -> Vec<u64>
        ensures value { result.items ≡ self }
        ensures fit { All (λ n. n < 2 ^ 64) self }
    {
        self.items
    }
}
