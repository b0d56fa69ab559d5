// Streams of bytes, in and out.
ghost use Rattle.std.specs.Prelude.{◌≡◌, ◌<◌, ◌≤◌, ◌++◌, List, ℕ, length, take, Option, IsSome, is_some, IfOk, OnOk, OnErr};
ghost use Rattle.zms_dev.specs.Causes.{HasCause, one_more};
ghost use Rattle.zms_dev.specs.Stream.{SourceState, SinkState, told, Takes};

use crate::Failed;

/// A text to be read once, from its front. One that gives 0 bytes has ended.
pub trait Source {
    /// The bytes that it has left, where it tells them, and how often it has failed.
    ghost state: { Self → SourceState };

    /// Takes bytes off the front into the buffer, and answers how many: none only at the end, or for an empty
    /// buffer. A call that failed takes none.
    fn read(&mut self, buf: &mut [u8]) -> Result<usize, Failed>
        // Whatever the source does.
        ensures bound { IfOk result (λ n. n ≤ length buf.new) }
        ensures bytes { IsSome (state self.old).left → IfOk result (Takes (told (state self.old).left) (told (state self.new).left) buf.new) }
        ensures err { OnErr result ((state self.new).left ≡ (state self.old).left) }
        ensures kind { is_some (state self.new).left ≡ is_some (state self.old).left }
        ensures cause { HasCause (state self.old).faults (state self.new).faults result };
}

/// A place to write a text to, once and in order.
pub trait Sink {
    /// The bytes that it has taken, and those that it has handed on, where it tells them, and how often it has failed.
    ghost state: { Self → SinkState };

    /// Takes the first bytes of the piece, and answers how many. A call that failed takes none, and one that takes none
    /// of a piece that is not empty counts as a fault too.
    fn write(&mut self, bytes: &[u8]) -> Result<usize, Failed>
        // Whatever the sink does.
        ensures bound { IfOk result (λ n. n ≤ length bytes.now) }
        ensures bytes { IsSome (state self.old).taken → IfOk result (λ n. told (state self.new).taken ≡ told (state self.old).taken ++ take n bytes.now) }
        ensures err { OnErr result ((state self.new).taken ≡ (state self.old).taken) }
        ensures kind { is_some (state self.new).taken ≡ is_some (state self.old).taken }
        ensures handed { (state self.new).handed ≡ (state self.old).handed }
        ensures none { IfOk result (λ n. n ≡ 0 → 0 < length bytes.now → (state self.new).faults ≡ one_more (state self.old).faults) }
        ensures empty { IfOk result (λ n. length bytes.now ≡ 0 → (state self.new).faults ≡ (state self.old).faults) }
        ensures some { IfOk result (λ n. 0 < n → (state self.new).faults ≡ (state self.old).faults) }
        ensures failed { OnErr result ((state self.new).faults ≡ one_more (state self.old).faults) };

    /// Hands on all that it has taken, so that what is lost on the way is told.
    fn flush(&mut self) -> Result<(), Failed>
        ensures taken { (state self.new).taken ≡ (state self.old).taken }
        ensures handed { OnOk result ((state self.new).handed ≡ (state self.old).taken) }
        ensures cause { HasCause (state self.old).faults (state self.new).faults result };
}
