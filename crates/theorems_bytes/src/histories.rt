// The theorems over whole histories of entry-point calls: each the promise of an empty function, so that the
// check asks for its proof.
ghost use Rattle.theorems_bytes.specs.Fitting.{FitsKept};
ghost use Rattle.theorems_bytes.specs.Images.{Images, Restarted};
ghost use Rattle.theorems_bytes.specs.Stamps.{HoldsLoggedAt, CarriedStampAt};
ghost use Rattle.theorems_bytes.specs.Reports.{FinishedReportAt};
ghost use Rattle.theorems_bytes.specs.ByNumber.{ReportedByNumber};
ghost use Rattle.theorems_bytes.specs.Cases.{Computed};

// Every field of a clock that was reached fits its width.
pub fn fits_kept()
    ensures { FitsKept }
{}

// From start on, over any calls, `dts_start` among them, state and table are the image of the clock and the table by
// value, and every element of both is a byte.
pub fn images()
    ensures { Images }
{}

// The table holds the newest of the records that were logged since the last start, byte for byte.
pub fn holds_logged()
    ensures { HoldsLoggedAt }
{}

// A stamp that was read and is carried over the table's bytes answers exactly when it can, and then tells the
// seconds that ran.
pub fn carried_stamp()
    ensures { CarriedStampAt }
{}

// Starting a reader that was reached is starting one.
pub fn restarted()
    ensures { Restarted }
{}

// Histories over bytes, computed: the paper's case 6, a fault, reports; and a write that is no bytes.
pub fn computed()
    ensures { Computed }
{}

// An accepted report, joined over 48 bytes and read, gives the numbers of exactly the held records that match; it
// closes among calls that do not end it.
pub fn finished_report()
    ensures { FinishedReportAt }
{}

// An accepted report by number names held records, and gives exactly those from the one named to the newest, from the
// oldest to it, or from one to the other.
pub fn reported_by_number()
    ensures { ReportedByNumber }
{}
