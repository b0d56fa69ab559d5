//! The rotor over the vdevs of a class, after `mc_rotor`.
ghost use Rattle.std.specs.Prelude.{◌≡◌, ◌^◌, ◌<◌};
ghost use Rattle.class_core.specs.ClassInside.{next_place, rotor_next};

/// So many bytes are granted on a vdev before the next one follows, after `mg_aliquot`: a mebibyte.
const ALIQUOT: u64 = 1 << 20;

/// The place of the vdev from which allocations begin, and the bytes granted there since it became that.
#[derive(Clone, Copy, Debug)]
pub(crate) struct Rotor {
    pub place: usize,
    pub used: u64,
}

impl Rotor {
    /// The rotor after so many bytes were granted at a place.
    pub(crate) fn after(self, count: usize, place: usize, bytes: u64) -> Self
        requires place { place < count }
        requires used { self.used < 1048576 }
        ensures { result ≡ rotor_next self count place bytes }
    {
        if place != self.place {
            return self;
        }
        let used = self.used.saturating_add(bytes);
        if used < ALIQUOT {
            return Rotor { place, used };
        }
        Rotor {
            place: next_place(count, place),
            used: 0,
        }
    }
}

/// The place behind one, and the first behind the last.
fn next_place(count: usize, place: usize) -> usize
    requires { place < count }
    ensures { result ≡ next_place count place }
{
    if place + 1 < count { place + 1 } else { 0 }
}
