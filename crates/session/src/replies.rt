// The reply lines of a session.
mod spelling;

pub use spelling::{spell_answer, spell_refusal};

// A number in decimal digits, or a letter.
#[derive(Clone, Copy)]
enum Field {
    Count(u32),
    Letter(u8),
}
