// Results as hosts get them: numbers in an array that the host lends.
ghost use Rattle.std.specs.Prelude.{◌≡◌, set};

// Writes a result where a host's array has a place for it.
pub fn put_result(results: &mut [u64], place: usize, number: u64)
    ensures { results.new ≡ set results.old place number }
{
    if place < results.len() {
        results[place] = number;
    }
}
