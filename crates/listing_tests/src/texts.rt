// The listing of a text.
pub(crate) fn print_listing(out: &impl Print, line: &[u8]) {
    let listing = text_listing_bytes::list(line);
    let bytes = listing.bytes;
    let length = listing.length;
    let _ = out.write_all(&bytes[..length]);
}
