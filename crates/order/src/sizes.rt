// What a session is lent: its file, and a buffer for its packets.
ghost use Rattle.std.specs.Prelude.{◌≡◌, length, IfSome, is_some};
ghost use Rattle.basis.specs.Board.{pages_of};
ghost use Rattle.order.specs.Sizes.{right_sizes};

use basis::board::Board;
use packet::build::PACKET;
use runs::file::File;

/// Whether image and map have so many bytes as the board asks, and the packet buffer 259.
// Beside `lend` for who has the sizes alone.
pub fn right_sizes(board: Board, image: usize, map: usize, packet: usize) -> bool
    ensures { result ≡ right_sizes (pages_of board) image map packet }
{
    board.right_sizes(image, map) && PACKET <= packet
}

/// The file, where image and map are as long as the board asks and the packet buffer has 259 bytes; else none.
pub fn lend<'a>(board: Board, image: &'a [u8], map: &'a [u8], packet: usize) -> Option<File<'a>>
    ensures some { is_some result ≡ right_sizes (pages_of board) (length image.now) (length map.now) packet }
    ensures board { IfSome result (λ f. f.map.board ≡ board) }
    ensures image { IfSome result (λ f. f.image.now ≡ image.now) }
    ensures bits { IfSome result (λ f. f.map.bits.now ≡ map.now) }
{
    if packet < PACKET {
        return None;
    }
    File::lend(board, image, map)
}
