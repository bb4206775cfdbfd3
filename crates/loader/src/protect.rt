// P: a sequence is opened, groups are added to it, and closing it puts them in force.
ghost use Rattle.std.specs.Prelude.{ℕ};
ghost use Rattle.basis.specs.Board.{pages_of};
ghost use Rattle.loader.specs.Commands.{opening, adding, closing, protecting, keeping};
ghost use Rattle.loader.specs.Deeds.{JudgesAny};

use crate::deed::Deed;
use crate::state::Loader;
use crate::verdict::Refusal;
use basis::board::{Board, GROUP};
use basis::units::Address;

/// P by its type, which opens a sequence, adds to it or closes it: 9 where the sequence is not as that asks, 7 for an
/// address past the last group, which stands for reading.
// `kind` is a byte, as it stands in the packet: an enum of the three would be read here and nowhere else.
pub fn protect(board: Board, loader: Loader, address: Address, kind: u8) -> Result<Deed, Refusal>
    ensures { JudgesAny (pages_of board) result loader
        (λ f. keeping f (protecting (pages_of board) loader address.0 kind)) }
{
    match kind {
        0x00 => open(loader),
        0x0F => add(board, loader, address),
        // 0x01: the command table has let no other type through.
        _ => close(loader, address),
    }
}

#[tactic(auto, unfolding(basis::specs::Refusals::first, crate::specs::Commands::opening))]
fn open(loader: Loader) -> Result<Deed, Refusal>
    ensures { (b : ℕ) → JudgesAny b result loader (λ f. keeping f (opening loader)) }
{
    if loader.sequence.opened {
        return Err(Refusal::Sequence);
    }
    Ok(Deed::Open)
}

#[tactic(auto, unfolding(basis::specs::Refusals::first, crate::specs::Commands::adding))]
fn add(board: Board, loader: Loader, address: Address) -> Result<Deed, Refusal>
    ensures { JudgesAny (pages_of board) result loader
        (λ f. keeping f (adding (pages_of board) loader address.0)) }
{
    if !loader.sequence.opened {
        return Err(Refusal::Sequence);
    }
    if board.end().0 + GROUP <= address.0 {
        return Err(Refusal::Address);
    }
    Ok(Deed::Add(address))
}

#[tactic(auto, unfolding(basis::specs::Refusals::first, crate::specs::Commands::closing))]
fn close(loader: Loader, address: Address) -> Result<Deed, Refusal>
    ensures { (b : ℕ) → JudgesAny b result loader (λ f. keeping f (closing loader address.0)) }
{
    if !loader.sequence.opened {
        return Err(Refusal::Sequence);
    }
    Ok(Deed::Close(address.0))
}
