//! Laws of the definitions, each the contract of a function with nothing to do.

ghost use Rattle.std.specs.Prelude.{ℕ, List, [], ◌∷◌, ◌++◌, length};
ghost use Rattle.cbm_medium.specs.Place.{Place};
ghost use Rattle.cbm_medium.specs.Content.{Content, IsWhole};
ghost use Rattle.cbm_bam.specs.Map.{map_of};
ghost use Rattle.cbm_chain.specs.Data.{chain_bytes};
ghost use Rattle.cbm_chain.specs.Writing.{State, Part, StandsAfter, Wrote, Puts, EndsChain, place_or_none, AreTaken, PutsAll, HasPut, IsChainOf};

/// A writer that stands after the last byte of blocks that are there has written what they hold.
pub fn a_writer_after_a_chain_has_its_bytes()
    ensures { (tracks : ℕ) (content : Content) (blocks : List Place) (s : State) → ((p : Place) → IsWhole (content p)) →
        Part tracks content blocks → StandsAfter tracks content blocks s →
        Wrote content s blocks (chain_bytes content blocks) }
{}

/// A byte that is put stands after those that its writer put before, in the same blocks or with one more.
pub fn a_byte_stands_after_the_others()
    ensures { (old new : Content) (s t : State) (blocks : List Place) (bytes : List ℕ) (byte : ℕ) →
        Wrote old s blocks bytes → AreTaken (map_of old) blocks → Puts old new s byte t →
        HasPut 1 new t blocks (bytes ++ byte ∷ []) }
{}

/// When the last block is written, a writer's blocks are a chain of all that it put.
pub fn a_last_block_makes_a_chain()
    ensures { (old new : Content) (s : State) (blocks : List Place) (bytes : List ℕ) →
        Wrote old s blocks bytes → EndsChain old new s.current s.waiting →
        IsChainOf s.tracks new (place_or_none s.first) blocks bytes }
{}

/// A chain holds the bytes that were there and after them those that were put.
pub fn chains_hold_what_was_put()
    ensures { (old middle new : Content) (s t : State) (blocks : List Place) (bytes put : List ℕ) →
        Wrote old s blocks bytes → AreTaken (map_of old) blocks → PutsAll put old s middle t →
        EndsChain middle new t.current t.waiting →
        (more : List Place) × IsChainOf t.tracks new (place_or_none t.first) (blocks ++ more) (bytes ++ put) }
{}
