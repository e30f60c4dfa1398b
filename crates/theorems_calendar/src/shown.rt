// Which times the calendar shows: the promise of an empty function, so that the check asks for its proof.
ghost use Rattle.theorems_calendar.specs.Shown.{OnTheCalendar};

// Theorem On the calendar.
pub fn on_the_calendar()
    ensures { OnTheCalendar }
{}
