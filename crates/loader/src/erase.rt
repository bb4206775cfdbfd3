// E: pages become 0xFF, or everything does and all protection goes.
ghost use Rattle.std.specs.Prelude.{◌≡◌};
ghost use Rattle.basis.specs.Board.{pages_of};
ghost use Rattle.basis.specs.Refusals.{first};
ghost use Rattle.loader.specs.Commands.{mass_erase, erasing, erase_rows, pages_erased};
ghost use Rattle.loader.specs.Deeds.{JudgesAny};

use crate::deed::Deed;
use crate::state::Loader;
use crate::verdict::Refusal;
use basis::board::{Board, PAGE};
use basis::units::{Address, Group, Page};

/// E over so many pages from the address's page on; a count of 0 at address 0 is the mass erase, which no protection
/// stops. 9 while a protect sequence is open; 7 for no pages, or past the end; 8 where a group is protected.
#[tactic(auto, unfolding(basis::specs::Refusals::first, crate::specs::Commands::erasing))]
pub fn erase(board: Board, loader: Loader, address: Address, count: u8) -> Result<Deed, Refusal>
    ensures { JudgesAny (pages_of board) result loader (erasing (pages_of board) loader address.0 count) }
{
    if loader.sequence.opened {
        return Err(Refusal::Sequence);
    }
    // No protection stops it.
    if is_mass(address, count) {
        return Ok(Deed::MassErase);
    }
    erase_pages(board, loader, address, count)
}

fn is_mass(address: Address, count: u8) -> bool
    ensures { result ≡ mass_erase address.0 count }
{
    count == 0 && address.0 == 0
}

// 7 and 8 of an erase of pages.
#[tactic(auto, unfolding(basis::specs::Refusals::first, crate::specs::Commands::erase_rows))]
fn erase_pages(board: Board, loader: Loader, address: Address, count: u8) -> Result<Deed, Refusal>
    ensures { let b = pages_of board in let a = address.0 in
        JudgesAny b result loader (λ f. first (erase_rows b loader a count) (pages_erased loader a count f)) }
{
    let page = Page::from(address);
    let end = page.0 + u32::from(count);
    if count == 0 {
        return Err(Refusal::Address);
    }
    if board.end() <= address {
        return Err(Refusal::Address);
    }
    if board.pages() < end {
        return Err(Refusal::Address);
    }
    // The end rounded up to its group.
    if loader
        .protection
        .any(Group::from(page), Group::from(Page(end + 3)))
    {
        return Err(Refusal::Protected);
    }
    Ok(Deed::Erase(page.start(), usize::from(count) * PAGE as usize))
}
