// The header line.
ghost use Rattle.listing_format.specs.Parsing.{after_header};
ghost use Rattle.listing_fields.specs.Places.{PlaceIs};

use listing_fields::fields::after_line;

// Behind the header line, of 31 bytes and its end.
pub fn after_header(bytes: &[u8]) -> Option<usize>
    ensures { PlaceIs bytes.now (after_header bytes.now) result }
{
    if !bytes.starts_with(b"row,value,now,capacity,sequence") {
        return None;
    }
    after_line(bytes, 31)
}
