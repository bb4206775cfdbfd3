// What a walk over places has met so far, and the two ways on: one place, or 64 at once.
ghost use Rattle.std.specs.Prelude.{◌≡◌, ◌+◌, ◌-◌, ◌^◌, ◌<◌, ◌≤◌};
ghost use Rattle.runs.specs.Runs.{wrapped_of};
ghost use Rattle.runs.specs.Tally.{took_of, took_bits, joins_of, cut_of};

/// How many places passed, how many pieces started, and how much of a piece is open.
// No ghost field keeps its bounds: `tally_at` and `took_of` are told of any.
#[derive(Clone, Copy, Debug, Default, PartialEq, Eq)]
pub struct Tally {
    pub passed: u32,
    pub pieces: u32,
    pub off: u32,
}

impl Tally {
    /// One place more, which passes or not.
    #[tactic(auto, unfolding(crate::specs::Tally::took_of))]
    pub fn took(self, passes: bool, cap: u32) -> Tally
        requires passed { self.passed < 2 ^ 31 }
        requires pieces { self.pieces < 2 ^ 31 }
        requires off { self.off < cap }
        ensures { result ≡ took_of cap self passes }
    {
        if !passes {
            return Tally { off: 0, ..self };
        }
        Tally {
            passed: self.passed + 1,
            pieces: self.pieces + u32::from(self.off == 0),
            off: wrapped(self.off + 1, cap),
        }
    }

    /// 64 places more: the bits of a word, the lowest first.
    // Each of its runs starts a piece, but for one that goes on from before.
    pub fn took_word(self, word: u64, cap: u32) -> Tally
        requires passed { self.passed < 2 ^ 31 }
        requires pieces { self.pieces < 2 ^ 31 }
        requires off { self.off < cap }
        requires least { 64 ≤ cap }
        requires most { cap < 2 ^ 31 }
        ensures { result ≡ took_bits cap self word 64 }
    {
        if word == 0 {
            return Tally { off: 0, ..self };
        }
        let gaps = !word;
        if gaps == 0 {
            return self.took_whole(cap);
        }
        // In a run all but its last place have a next that passes too, so ones - inner is the number of runs.
        let ones = u64::count_ones(word);
        let inner = u64::count_ones(word & (word / 2));
        let joined = joins(self.off, u64::trailing_zeros(gaps), cap);
        Tally {
            passed: self.passed + ones,
            pieces: self.pieces + ones - inner - joined,
            off: u64::leading_zeros(gaps),
        }
    }

    // 64 places more that all pass.
    fn took_whole(self, cap: u32) -> Tally
        requires passed { self.passed < 2 ^ 31 }
        requires pieces { self.pieces < 2 ^ 31 }
        requires off { self.off < cap }
        requires least { 64 ≤ cap }
        requires most { cap < 2 ^ 31 }
        ensures { result ≡ took_bits cap self (2 ^ 64 - 1) 64 }
    {
        let joined = joins(self.off, 64, cap);
        Tally {
            passed: self.passed + 64,
            pieces: self.pieces + 1 - joined,
            off: cut(self.off + 64, cap),
        }
    }
}

// x, or 0 where x is cap.
fn wrapped(x: u32, cap: u32) -> u32
    ensures { result ≡ wrapped_of x cap }
{
    if x == cap { 0 } else { x }
}

// 1 where an open piece takes in the whole of a row, else 0.
#[tactic(auto, unfolding(crate::specs::Tally::joins_of))]
fn joins(off: u32, row: u32, cap: u32) -> u32
    requires { off + row < 2 ^ 32 }
    ensures { result ≡ joins_of off row cap }
{
    u32::from(off != 0 && row != 0 && off + row <= cap)
}

// What is open of x that pass in a row, of which cap at most makes a whole piece.
#[tactic(auto, unfolding(crate::specs::Tally::cut_of))]
fn cut(x: u32, cap: u32) -> u32
    ensures { result ≡ cut_of x cap }
{
    if x < cap { x } else { x - cap }
}
