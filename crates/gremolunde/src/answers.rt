// What several answers to C have in common: the number of an unknown board, and a length.
ghost use Rattle.std.specs.Prelude.{◌≡◌};
ghost use Rattle.basis.specs.Refusals.{refused, answer_of};
ghost use Rattle.gremolunde.specs.Answers.{length_answer};

use basis::numbered::Numbered;

/// The refusal where there is no board of so many pages.
// A number: loader, port and hex reader take a `Board`, so their refusals have no case for it.
pub const UNKNOWN_BOARD: u32 = 65;

/// How many bytes were written, or why none.
#[repr(C)]
#[derive(Clone, Copy, Default)]
pub struct Length {
    /// 0, or the refusal's number.
    pub number: u32,
    /// In bytes; 0 where it is refused.
    pub length: usize,
}

/// A refusal: nothing is written.
pub fn refused(number: u32) -> Length
    ensures { result ≡ length_answer (refused number) }
{
    Length {
        number,
        ..Length::default()
    }
}

/// What a builder or a writer gives, whatever its refusals are.
pub fn length_answer<E: Numbered + Drop>(answer: Result<usize, E>) -> Length
    ensures { result ≡ length_answer (answer_of E.number_of (λ n. n) answer) }
{
    match answer {
        Ok(length) => Length {
            length,
            ..Length::default()
        },
        Err(why) => refused(why.number()),
    }
}
