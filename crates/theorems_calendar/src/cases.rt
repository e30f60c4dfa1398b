// Dates and lines worked out by hand, computed by the checker on the definitions that the promises cite.
ghost use Rattle.theorems_calendar.specs.Cases.{Dates, Lines};

pub fn dates()
    ensures { Dates }
{}

pub fn lines()
    ensures { Lines }
{}
