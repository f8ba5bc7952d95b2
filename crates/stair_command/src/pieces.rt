ghost use Rattle.std.specs.Prelude.{◌≡◌, ◌+◌, ◌-◌, ◌*◌, ◌<◌, ◌≤◌, [], length, IfErr, IfOk, OnOk};
ghost use Rattle.stair_model.specs.Geometry.{data_cells};
ghost use Rattle.stair_model.specs.Stripe.{SECTOR as BYTES};
ghost use Rattle.stair_command.specs.Outside.{source_view};
ghost use Rattle.stair_command.specs.Pieces.{TakesPiece, part_of, piece_blocks as blocks_of_piece, whole_of};
ghost use Rattle.stair_command.specs.Taking.{PieceIsCut};

use crate::fault::Fault;
use crate::intake::Intake;
use stair_base::{Geometry, SECTOR};
use stair_rack::Source;
use std::alloc::{AllocError, Global};
use std::marker::Model;

/// How many blocks may be written as one step, from this block on, of which so many are left: none is past its stripe.
pub fn piece_blocks(geometry: &Geometry, block: u64, left: u64) -> u16
    ensures value { result ≡ blocks_of_piece geometry.now block left }
    ensures within { result ≤ data_cells geometry.now }
{
    let per_stripe = u64::from(geometry.u());
    left.min(per_stripe - block % per_stripe) as u16
}

/// Bytes on their way from a source to the blocks of a stripe: those that were taken and aren't written yet.
#[derive(Drop)]
pub struct Piece {
    // room for the blocks of a stripe
    buffer: Vec<u8>,
    // so many bytes at its front were taken
    held: usize,
}

impl Model for Piece {
    ghost use Rattle.std.specs.Prelude.{◌≤◌, length, take};
    ghost use Rattle.stair_command.specs.Pieces.{Held};

    ghost Value = { Held };

    ghost view = { λ p. record { bytes = take p.held p.buffer.items; room = length p.buffer.items } };

    ghost invariant = { λ p. p.held ≤ length p.buffer.items };
}

impl Piece {
    /// Room for the blocks of a stripe, none of which was taken.
    pub fn new(alloc: Global, geometry: &Geometry) -> Result<Piece, AllocError>
        ensures { IfOk result (λ piece. piece ≡
            record { bytes = []; room = data_cells geometry.now * BYTES }) }
    {
        let room = usize::from(geometry.u()) * SECTOR;
        let buffer = vec![in alloc; 0; room]?;
        Ok(Piece { buffer, held: 0 })
    }

    /// Takes what a whole block lacks, or more, up to what so many blocks lack.
    pub fn take<S: Source>(
        &mut self,
        input: &mut S,
        intake: &mut Intake,
        blocks: u16,
    ) -> Result<(), Fault>
        requires part { length self.old.bytes < BYTES }
        requires some { 0 < blocks }
        requires room { BYTES * blocks ≤ self.old.room }
        requires needed { intake.old.took + (BYTES * blocks - length self.old.bytes) ≤ intake.old.needed }
        ensures ok { OnOk result (TakesPiece (source_view S.Source) blocks
            self.old self.new intake.old intake.new input.old input.new) }
        ensures cut { IfErr result (PieceIsCut (source_view S.Source)
            (BYTES - length self.old.bytes) intake.old input.old input.new) }
        ensures room { self.new.room ≡ self.old.room }
    {
        let most = SECTOR * usize::from(blocks);
        let least = SECTOR - self.held;
        self.held += intake.take(input, least, &mut self.buffer[self.held..most])?;
        Ok(())
    }

    /// The whole blocks.
    pub fn whole(&self) -> &[u8]
        ensures { result.now ≡ whole_of self.entry.now.bytes }
    {
        &self.buffer[..self.held / SECTOR * SECTOR]
    }

    /// Lets the whole blocks go.
    pub fn drop_whole(&mut self)
        ensures { self.new ≡ record self.old { bytes = part_of self.old.bytes } }
    {
        let whole = self.held / SECTOR * SECTOR;
        self.buffer.copy_within(whole..self.held, 0);
        self.held -= whole;
    }
}
