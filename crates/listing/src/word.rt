// The words of a listing.
ghost use Rattle.std.specs.Prelude.{◌≡◌, ◌+◌, ◌*◌, ◌≤◌, length};
ghost use Rattle.listing.specs.Words.{word_at};

// Word i: four bytes, the lowest first. The compiler makes one load of it.
pub(crate) fn word_at(listing: &[u8], i: usize) -> u32
    requires { 4 * i + 4 ≤ length listing.now }
    ensures { result ≡ word_at listing.now i }
{
    let at = 4 * i;
    u32::from_le_bytes(*listing[at..].first_chunk().unwrap())
}
