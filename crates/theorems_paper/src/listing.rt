// The listing that the paper prints, of tables that the server's own calls leave: the promise of an empty function, so
// that the check asks for its proof.
ghost use Rattle.theorems_paper.specs.Listing.{PaperListing};

// Case 1, then case 6 (document 01, end of "Numbers the drivers worked out").
pub fn paper_listing()
    ensures { PaperListing }
{}
