// Blocks and the stripes that encode them.
ghost use Rattle.std.specs.Prelude.{◌≡◌, ◌+◌, ◌<◌, ◌≤◌, ℕ, List, length};
ghost use Rattle.stair_model.specs.Cell.{IsPlaceOf};
ghost use Rattle.stair_model.specs.Encoding.{IsEncodedFrom};
ghost use Rattle.stair_model.specs.Geometry.{Geometry, IsWithinLimits, block_count};
ghost use Rattle.stair_model.specs.Stripe.{Stripe, IsSector, cell, with_cell};
ghost use Rattle.stair_state.specs.Blocks.{AreEncodingsOf, Blocks, Codewords, IsSetFrom, with_block, with_blocks, with_word};

/// The stripes that encode blocks. It does nothing.
pub fn block_laws()
    // there is one for each stripe of the array, where the blocks are sectors
    ensures exist { (g : Geometry) (blocks : Blocks) → IsWithinLimits g →
        ((b : ℕ) → b < block_count g → IsSector (blocks b)) →
        (words : Codewords) × AreEncodingsOf g blocks words }
    ensures unique { (g : Geometry) (blocks : Blocks) (a b : Codewords) (t : ℕ) →
        IsWithinLimits g → AreEncodingsOf g blocks a → AreEncodingsOf g blocks b → t < g.stripes →
        a t ≡ b t }
    // each block stands in its place
    ensures at { (g : Geometry) (blocks : Blocks) (words : Codewords) (b t i j : ℕ) →
        IsWithinLimits g → AreEncodingsOf g blocks words → b < block_count g →
        IsPlaceOf g b t i j → cell (words t) i j ≡ blocks b }
    // a stripe that is encoded with a new block in its place gives the stripes of the new blocks
    ensures set { (g : Geometry) (blocks : Blocks) (words : Codewords) (b t i j : ℕ)
        (bytes : List ℕ) (after : Stripe) → IsWithinLimits g → AreEncodingsOf g blocks words →
        b < block_count g → IsPlaceOf g b t i j → IsSector bytes →
        IsEncodedFrom g (with_cell (words t) i j bytes) after →
        AreEncodingsOf g (with_block blocks b bytes) (with_word words t after) }
    // so does one in which several of its blocks were set, one after the other
    ensures set_all { (g : Geometry) (blocks : Blocks) (words : Codewords) (first t : ℕ)
        (contents : List (List ℕ)) (after : Stripe) → IsWithinLimits g →
        AreEncodingsOf g blocks words → first + length contents ≤ block_count g →
        IsSetFrom g t first contents (words t) after →
        AreEncodingsOf g (with_blocks blocks first contents) (with_word words t after) }
{}
