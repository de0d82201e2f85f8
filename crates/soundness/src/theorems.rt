// What holds of a settled register, as the contracts of functions that do nothing.
ghost use Rattle.soundness.specs.Sound.{RoundsAreSound};

// What settle ends with decides the book, and its worksheet shows why.
pub fn rounds_are_sound()
    ensures { RoundsAreSound }
{}
