// R: the loader is left.
ghost use Rattle.std.specs.Prelude.{ℕ};
ghost use Rattle.loader.specs.Commands.{keeping, running};
ghost use Rattle.loader.specs.Deeds.{JudgesAny};

use crate::deed::Deed;
use crate::state::Loader;
use crate::verdict::Refusal;
use basis::units::Address;

/// R: address 0 jumps, address 1 resets by software. 9 while a protect sequence is open, 7 for any other address.
#[tactic(auto, unfolding(basis::specs::Refusals::first, crate::specs::Commands::running))]
pub fn run(loader: Loader, address: Address) -> Result<Deed, Refusal>
    ensures { (b : ℕ) → JudgesAny b result loader (λ f. keeping f (running loader address.0)) }
{
    if loader.sequence.opened {
        return Err(Refusal::Sequence);
    }
    if 1 < address.0 {
        return Err(Refusal::Address);
    }
    Ok(Deed::Leave)
}
