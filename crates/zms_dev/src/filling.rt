// Appends within room that is there.
ghost use Rattle.std.specs.Prelude.{◌≡◌, ◌+◌, ◌≤◌, ◌++◌, length, vec_capacity};

/// Appends bytes for which there is room.
pub fn append(into: &mut Vec<u8>, bytes: &[u8])
    requires { length into.old.items + length bytes.now ≤ vec_capacity into.old }
    ensures bytes { into.new.items ≡ into.old.items ++ bytes.now }
    ensures capacity { vec_capacity into.old ≤ vec_capacity into.new }
{
    let _ = into.extend_from_slice(bytes);
}
