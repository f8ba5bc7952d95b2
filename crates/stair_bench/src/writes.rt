// Writes of blocks of an array, on image files.
ghost use Rattle.std.specs.Prelude.{◌≡◌};

use crate::arrays::create_on;
use crate::check::check_of_blocks;
use crate::counting::{Calls, Counting};
use crate::fault::Fault;
use crate::sectors::rack_here;
use crate::varied::varied;
use stair_array::{Array, ArrayFault};
use stair_base::{Geometry, SECTOR, StripeCode};
use stair_codec::{By, Codec};
use stair_filerack::Lock;
use stair_member::{Member, survey};
use stair_rack::Rack;
use std::alloc::{AllocError, Global};
use std::fs::Files;

/// What a round writes.
#[derive(Clone, Copy)]
pub(crate) enum Part {
    /// The middle block of the first stripe.
    Block,
    /// All blocks of the first stripe, as one step.
    Stripe,
    /// The same blocks, one by one.
    EachBlock,
}

impl Part {
    pub(crate) fn name(self) -> &'static str {
        match self {
            Part::Block => "write-block",
            Part::Stripe => "write-stripe",
            Part::EachBlock => "write-each",
        }
    }
}

/// Creates an array on the image files of the current folder, opens it, and writes this part of it so many times. Returns a
/// check of the blocks of its first stripe as read back, and the calls of these writes.
pub(crate) fn check_of_block_writes<F: Files + Drop>(
    rt: F,
    alloc: Global,
    geometry: &Geometry,
    part: Part,
    rounds: u32,
) -> Result<(u64, Calls), Fault>
where
    F::File: Lock,
{
    let rack = rack_here(rt, alloc)?;
    check_of_block_writes_on(rack, alloc, geometry, part, rounds)
}

/// The same on this rack.
fn check_of_block_writes_on<R: Rack + Drop>(
    rack: R,
    alloc: Global,
    geometry: &Geometry,
    part: Part,
    rounds: u32,
) -> Result<(u64, Calls), Fault> {
    let mut rack = rack;
    let mut array = new_array(alloc, &mut rack, geometry)?;
    check_of_writes(alloc, rack, &mut array, part, rounds)
}

/// Creates an array of this geometry on the rack, and opens it.
fn new_array<R: Rack>(
    alloc: Global,
    rack: &mut R,
    geometry: &Geometry,
) -> Result<Array<Codec>, Fault> {
    create_on(rack, geometry)?;
    let member = member_on(rack)?;
    let code = Codec::new(alloc, &member.geometry(), By::Fewest)?;
    open_on(alloc, rack, member, code)
}

/// The array that lies on the rack.
fn member_on<R: Rack>(rack: &mut R) -> Result<Member, Fault> {
    survey(rack).map_err(|_| Fault::Image)
}

/// Opens it.
fn open_on<R: Rack, C: StripeCode>(
    alloc: Global,
    rack: &mut R,
    member: Member,
    code: C,
) -> Result<Array<C>, Fault>
    requires { C.shape code ≡ member.array.geometry }
{
    Array::recover(alloc, rack, member, code).map_err(|_| Fault::Image)
}

/// Writes this part of the array so many times, and returns the check of its first stripe and the calls.
fn check_of_writes<R: Rack + Drop, C: StripeCode>(
    alloc: Global,
    rack: R,
    array: &mut Array<C>,
    part: Part,
    rounds: u32,
) -> Result<(u64, Calls), Fault> {
    let mut blocks = varied_blocks(alloc, array.geometry().u())?;
    let mut rack = Counting::new(rack);
    write_rounds(array, &mut rack, part, &blocks, rounds)?;
    let calls = rack.calls();
    read_back(array, &mut rack, &mut blocks)?;
    Ok((check_of_blocks(&blocks), calls))
}

/// Writes this part of the first stripe, whose blocks are these, so many times.
fn write_rounds<R: Rack, C: StripeCode>(
    array: &mut Array<C>,
    rack: &mut R,
    part: Part,
    blocks: &[[u8; SECTOR]],
    rounds: u32,
) -> Result<(), Fault> {
    for _round in 0..rounds {
        if write_part(array, rack, part, blocks).is_err() {
            return Err(Fault::Image);
        }
    }
    Ok(())
}

/// Writes this part of the first stripe, whose blocks are these.
fn write_part<R: Rack, C: StripeCode>(
    array: &mut Array<C>,
    rack: &mut R,
    part: Part,
    blocks: &[[u8; SECTOR]],
) -> Result<(), ArrayFault> {
    match part {
        Part::Block => write_middle(array, rack, blocks),
        Part::Stripe => write_stripe(array, rack, blocks),
        Part::EachBlock => write_each(array, rack, blocks),
    }
}

/// Writes the middle one of these blocks of the first stripe.
fn write_middle<R: Rack, C: StripeCode>(
    array: &mut Array<C>,
    rack: &mut R,
    blocks: &[[u8; SECTOR]],
) -> Result<(), ArrayFault> {
    let middle = usize::from(array.geometry().u()) / 2;
    match blocks.get(middle) {
        Some(block) => write_block(array, rack, middle as u64, block),
        None => Ok(()),
    }
}

/// Writes these blocks of the first stripe as one step, if they are all of its blocks.
fn write_stripe<R: Rack, C: StripeCode>(
    array: &mut Array<C>,
    rack: &mut R,
    blocks: &[[u8; SECTOR]],
) -> Result<(), ArrayFault> {
    if blocks.len() == usize::from(array.geometry().u()) {
        array.write_blocks(rack, 0, blocks.as_flattened())
    } else {
        Ok(())
    }
}

/// Writes these blocks of the first stripe, one by one.
fn write_each<R: Rack, C: StripeCode>(
    array: &mut Array<C>,
    rack: &mut R,
    blocks: &[[u8; SECTOR]],
) -> Result<(), ArrayFault> {
    for (number, block) in blocks.iter().enumerate() {
        write_block(array, rack, number as u64, block)?;
    }
    Ok(())
}

/// Writes this block.
fn write_block<R: Rack, C: StripeCode>(
    array: &mut Array<C>,
    rack: &mut R,
    number: u64,
    block: &[u8; SECTOR],
) -> Result<(), ArrayFault> {
    array.write(rack, number, block)
}

/// Reads the first blocks of the array.
fn read_back<R: Rack, C: StripeCode>(
    array: &mut Array<C>,
    rack: &mut R,
    blocks: &mut [[u8; SECTOR]],
) -> Result<(), Fault> {
    for (number, block) in blocks.iter_mut().enumerate() {
        if read_block(array, rack, number as u64, block).is_err() {
            return Err(Fault::Image);
        }
    }
    Ok(())
}

/// Reads this block.
fn read_block<R: Rack, C: StripeCode>(
    array: &mut Array<C>,
    rack: &mut R,
    number: u64,
    into: &mut [u8; SECTOR],
) -> Result<(), ArrayFault> {
    array.read(rack, number, into)
}

/// Returns so many blocks, each of bytes that vary with its number.
fn varied_blocks(alloc: Global, count: u16) -> Result<Vec<[u8; SECTOR]>, AllocError> {
    let mut blocks = Vec::with_capacity(alloc, usize::from(count))?;
    for number in 0..count {
        blocks.push(varied(number % 1024))?;
    }
    Ok(blocks)
}
