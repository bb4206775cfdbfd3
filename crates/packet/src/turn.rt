// A byte turned for V, and turned back.
ghost use Rattle.std.specs.Prelude.{◌≡◌};
ghost use Rattle.packet.specs.Turn.{turned_of, restored_of};

/// A byte as V sends it: from the top, the original bits 4 3 2 1 0 7 6 5.
#[tactic(auto, using(crate::proofs::Steps::turns))]
pub fn turned(b: u8) -> u8
    ensures { result ≡ turned_of b }
{
    b.rotate_left(3)
}

/// The byte that was turned: the original of one that V sent.
#[tactic(auto, using(crate::proofs::Steps::turns))]
pub fn restored(t: u8) -> u8
    ensures { result ≡ restored_of t }
{
    t.rotate_right(3)
}
