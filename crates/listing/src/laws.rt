//! The laws of listings.

ghost use Rattle.listing.specs.CoreListingLaws.{CoreListingLaws};
ghost use Rattle.listing.specs.ListingLaws.{ListingLaws};

use dc_stack::fault_law;
use draw_ops::records_law;
use mapping::nib_law;
use meta_headers::opening_law;
use preflight_cert::text_law;

/// The law of listings. Suppose that a run of the file stops in a record, on a surface of a valid size, or that a
/// certificate is rejected there. Then the line with that number is the record's, says where the record begins, and has
/// the same fault, unless that is in the certificate's own entry.
///
/// If the fault is a nib that is too wide, the line may say that the record is off the plane instead. If the records
/// break, the line says where. No line says that the painting of a path is off the plane, since no run has that fault
/// there: the points land on each surface where a run gets that far.
pub fn listing_law()
    ensures { ListingLaws }
{
    fault_law();
    nib_law();
    opening_law();
    records_law();
    text_law();
}

/// Under the core profile a listing is that of the file as `open_file` opens it, and EMF+ is no fault.
pub fn core_listing_law()
    ensures { CoreListingLaws }
{
    opening_law();
}
