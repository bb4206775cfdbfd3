// The lines of a plan and of a log that are a word and at most a number.
ghost use Rattle.std.specs.Prelude.{◌≡◌, ◌++◌, Some};
ghost use Rattle.listing.specs.Lines.{line_end, line_text, head_line, total_line, refusal_line};

use std::fmt;

/// A line without its 0A, which comes with `writeln`.
#[derive(Clone, Copy, Debug, PartialEq, Eq)]
pub enum Line {
    /// Above a plan's steps.
    Head,
    /// TOTAL and how many packets the plan has.
    Total(u32),
    /// REFUSED and a refusal's number.
    Refused(u64),
}

impl Line {
    /// The line above the steps.
    pub fn head() -> Line
        ensures line { result ≡ Line.Head }
        ensures text { line_text result ++ line_end ≡ head_line }
    {
        Self::Head
    }

    /// TOTAL and the number of packets.
    #[tactic(auto, unfolding(crate::specs::Lines::total_line))]
    pub fn total(total: u32) -> Line
        ensures line { result ≡ Line.Total total }
        ensures text { line_text result ++ line_end ≡ total_line total }
    {
        Self::Total(total)
    }

    /// REFUSED and the number.
    #[tactic(auto, unfolding(crate::specs::Lines::refusal_line))]
    pub fn refused(number: u64) -> Line
        ensures line { result ≡ Line.Refused number }
        ensures text { line_text result ++ line_end ≡ refusal_line number }
    {
        Self::Refused(number)
    }
}

impl fmt::Display for Line {
    ghost output = { λ x. Some (line_text x) };

    #[tactic(auto, using(crate::proofs::Digits::decimals))]
    fn fmt<W: fmt::Write>(&self, f: &mut fmt::Formatter<W>) -> fmt::Result {
        match *self {
            Line::Head => write!(f, "STEP KIND PACKET"),
            Line::Total(total) => write!(f, "TOTAL {total}"),
            Line::Refused(number) => write!(f, "REFUSED {number}"),
        }
    }
}
