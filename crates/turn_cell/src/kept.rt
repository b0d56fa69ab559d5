//! What a turn may keep.
ghost use Rattle.std.specs.Prelude.{ℕ, List};

/// The greatest right that a note may need. The rights are 0 to this.
pub const MAX_RIGHT: u8 = 16;

/// A value with a journal, which a turn may keep. Its impl stands in the crate of the type, in a file of its own.
/// Notes and fixed parts are plain data that may cross threads, so a turn and a pass may wherever the value may.
pub trait Kept {
    /// One act, as the journal has it.
    type Note: Copy + Send;
    /// What stays the same of the value while it is kept. No value of this type is made.
    type Fixed: Send;

    // The notes of all acts so far, as the value stores them.
    ghost journal: { Self → List Self.Note };
    // The right that a note needs. A note of a right above `MAX_RIGHT` cannot be given.
    ghost right: { Self.Note → ℕ };
    // The fixed part of a value that a turn is made of.
    ghost fixed: { Self → Self.Fixed };
    // Whether the value stands for a fixed part.
    ghost stands: { Self.Fixed → Self → Type 0 };
}
