// A file for a board: its image, and the map of the addresses that it names.
ghost use Rattle.std.specs.Prelude.{◌≡◌, length, IfSome, is_some};
ghost use Rattle.basis.specs.Board.{pages_of};
ghost use Rattle.basis.specs.Units.{start_of, right_sizes_in};
ghost use Rattle.runs.specs.Sizes.{FitsImage};

use crate::map::Map;
use basis::board::Board;

/// A file for a board: image and map are as long as the board asks.
#[derive(Clone, Copy)]
pub struct File<'a> {
    pub map: Map<'a>,
    pub image: &'a [u8],
    pub ghost fits: { FitsImage map.board image.now },
}

impl<'a> File<'a> {
    /// The file of an image and a map, where both are as long as the board asks; else none.
    pub fn lend(board: Board, image: &'a [u8], bits: &'a [u8]) -> Option<File<'a>>
        ensures some { let size = start_of (pages_of board) in
            is_some result ≡ right_sizes_in size (length image.now) (length bits.now) }
        ensures board { IfSome result (λ f. f.map.board ≡ board) }
        ensures image { IfSome result (λ f. f.image.now ≡ image.now) }
        ensures bits { IfSome result (λ f. f.map.bits.now ≡ bits.now) }
    {
        if image.len() != board.size() {
            return None;
        }
        let map = Map::lend(board, bits)?;
        Some(File { map, image })
    }
}
