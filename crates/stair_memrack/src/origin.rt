// What a rack is made over.
ghost use Rattle.std.specs.Prelude.{◌≡◌, ◌<◌, ◌^◌, [], map, IfOk};
ghost use Rattle.stair_memrack.specs.Origin.{AreBlankOrigins, place_over};

use crate::disk::{Cells, Disk};
use crate::place::Place;
use std::alloc::{AllocError, Global};
use std::marker::Model;

/// What a slot holds when the rack is made: the cells of its medium, and those of the media in its drawer.
#[derive(Debug, Drop)]
pub(crate) struct Origin {
    medium: Option<Cells>,
    // The first that was pulled first.
    removed: Vec<Cells>,
}

impl Model for Origin {
    ghost use Rattle.stair_memrack.specs.Origin.{OriginState};

    ghost Value = { OriginState };

    ghost view = { λ o. record { medium = o.medium; removed = o.removed.items } };
}

impl Origin {
    /// A slot with this medium, and with these media in its drawer.
    pub(crate) fn new(medium: Option<Cells>, removed: Vec<Cells>) -> Origin
        ensures { result ≡ record { medium = medium; removed = removed.items } }
    {
        Origin { medium, removed }
    }

    /// The slot, whose drawer has memory for so many media more.
    pub(crate) fn place(&self, alloc: Global, more: usize) -> Result<Place, AllocError>
        requires { more < 2 ^ 63 }
        ensures { IfOk result (λ p. p ≡ place_over more self.now) }
    {
        let medium = match &self.medium {
            Some(cells) => Some(Disk::over(alloc, cells)?),
            None => None,
        };
        Place::new(alloc, medium, &self.removed, more)
    }
}

/// The 32 slots, with blank media of so many sectors in the first ones.
pub(crate) fn blank_origins(
    alloc: Global,
    media: u8,
    sectors: u32,
) -> Result<Vec<Origin>, AllocError>
    ensures { IfOk result (λ v. AreBlankOrigins 32 media sectors v.items) }
{
    let mut made = Vec::with_capacity(alloc, 32)?;
    for slot in 0..32u8 {
        let medium = if slot < media {
            Some(Cells::blank(alloc, sectors)?)
        } else {
            None
        };
        made.push(Origin::new(medium, Vec::new(alloc)))?;
    }
    Ok(made)
}

/// The slots, whose drawers have memory for so many media more.
pub(crate) fn places(
    alloc: Global,
    made: &Vec<Origin>,
    more: usize,
) -> Result<Vec<Place>, AllocError>
    requires { more < 2 ^ 63 }
    ensures { IfOk result (λ v. v.items ≡ map (place_over more) made.now.items) }
{
    let mut places = Vec::with_capacity(alloc, made.len())?;
    for origin in made.iter() {
        places.push(origin.place(alloc, more)?)?;
    }
    Ok(places)
}
