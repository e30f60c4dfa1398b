// The salvages that the request shuts out, shown to keep other records.
ghost use Rattle.theorems_salvage.specs.Wrong.{ShutOut};

pub fn shut_out()
    ensures { ShutOut }
{}
