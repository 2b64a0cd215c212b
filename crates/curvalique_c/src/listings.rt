// The listing of a sheet, and a listing read back.
ghost use Rattle.std.specs.Prelude.{◌≡◌, [], ◌∷◌};
ghost use Rattle.listing_bytes.specs.Listed.{Listed};
ghost use Rattle.listing_reader.specs.Listing.{ListingReading};
ghost use Rattle.outputs.specs.ListingCalls.{read_answer, read_outputs};

use listing_bytes::LISTING_BYTES;

// The listing program's listing of a sheet; the other bytes of the array stay.
#[unsafe(no_mangle)]
pub extern "C" fn curvalique_list_sheet(
    sheet: &[u8],
    listing: &mut [u8; LISTING_BYTES],
    length: &mut usize,
)
    ensures { Listed sheet.now listing.old length.new listing.new }
{
    curvalique::listings::curvalique_list_sheet(sheet, listing, length);
}

// A listing, read into the lent words.
#[unsafe(no_mangle)]
pub extern "C" fn curvalique_read_listing(
    bytes: &[u8],
    nodes: &mut [u64],
    count: &mut u64,
    form: &mut u64,
    id: &mut u64,
    number: &mut u64,
    record: &mut u64,
    line: &mut u64,
) -> u64
    ensures listing_reading { ListingReading bytes.now nodes.old
        (read_answer result count.new form.new id.new number.new «record».new
        line.new) nodes.new }
    ensures line_after { result ∷ count.new ∷ form.new ∷ id.new ∷ number.new ∷ «record».new ∷ line.new ∷ [] ≡ read_outputs (read_answer result count.new form.new id.new number.new
        «record».new line.new) count.old form.old id.old number.old
        «record».old line.old }
{
    curvalique::listings::curvalique_read_listing(
        bytes, nodes, count, form, id, number, record, line,
    )
}
