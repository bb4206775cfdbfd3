// 64 places of the map at once.
ghost use Rattle.std.specs.Prelude.{◌≡◌, ◌+◌, ◌≤◌, length};
ghost use Rattle.basis.specs.Lists.{Bytes};
ghost use Rattle.runs.specs.Map.{word_of};

/// Eight bytes from the one at `at` on as one number, the first lowest.
#[tactic(auto, unfolding(crate::specs::Map::word_of))]
pub fn word(map: &[u8], at: usize) -> u64
    requires { at + 8 ≤ length map.now }
    ensures word { result ≡ word_of map.now at 8 }
    ensures bytes { Bytes map.now }
{
    u64::from_le_bytes([
        map[at],
        map[at + 1],
        map[at + 2],
        map[at + 3],
        map[at + 4],
        map[at + 5],
        map[at + 6],
        map[at + 7],
    ])
}
