// Vectors in lent memory.

ghost use Rattle.std.specs.Prelude.{◌≤◌, length};

mod filling;

// The first places of a lent slice are filled, the others are free. It is no Vec: a catalogue is entered into memory
// that is handed in.
#[derive(Drop)]
pub struct LentVec<'a, T> {
    places: &'a mut [T],
    filled: usize,
    ghost within: { filled ≤ length places.now },
}
