// What the numbers of a part come to: the promise of an empty function, so that the check asks for its proof.
ghost use Rattle.ramp_bytes.specs.Theorems.{SamePart};

// The bytes at that offset of that table are those that the call in Rattle hands back.
pub fn same_part()
    ensures { SamePart }
{}
