// Runs of bytes, copied or set to zero. A run is a start and a length beside its buffer: with slices every caller cuts two parts first.
ghost use Rattle.std.specs.Prelude.{◌≡◌, ℕ, ◌+◌, ◌≤◌, length, get_or};
ghost use Rattle.settings.specs.Settings.{max_vector_bytes};
ghost use Rattle.general.specs.Scatter.{scatter, all, zeros, onwards};

use settings::Settings;

// Copies n bytes of src, from index at_src on, to those of dst from index at_dst on. By `copy_from_slice`, here or in `copy_vector`,
// rows of mixed elements took up to 2 times, columns up to 7 times the instructions.
pub(crate) fn copy_bytes(dst: &mut [u8], at_dst: usize, src: &[u8], at_src: usize, n: usize)
    requires { (at_dst + n ≤ length dst.old) × (at_src + n ≤ length src.now) }
    ensures { dst.new ≡ scatter (onwards at_dst) all (λ (k : ℕ). get_or src.now (at_src + k) 0) n dst.old }
{
    for i in 0..n {
        dst[at_dst + i] = src[at_src + i];
    }
}

// The same for at most as many bytes as the longest vector has, by way of a local array. The compiler cannot tell that the
// two slices do not overlap; by this way the copy is one memmove, or one load and one store where n is small and written out.
pub(crate) fn copy_vector(dst: &mut [u8], at_dst: usize, src: &[u8], at_src: usize, n: usize)
    requires { (n ≤ max_vector_bytes) × (at_dst + n ≤ length dst.old) × (at_src + n ≤ length src.now) }
    ensures { dst.new ≡ scatter (onwards at_dst) all (λ (k : ℕ). get_or src.now (at_src + k) 0) n dst.old }
{
    let mut part = [0u8; Settings::MAX_VECTOR_BYTES as usize];
    copy_bytes(&mut part, 0, src, at_src, n);
    copy_bytes(dst, at_dst, &part, 0, n);
}

// Sets n bytes of dst, from index at on, to zero. By `fill` it was up to 1.24 times the instructions in cases measured.
pub(crate) fn clear_bytes(dst: &mut [u8], at: usize, n: usize)
    requires { at + n ≤ length dst.old }
    ensures { dst.new ≡ scatter (onwards at) all zeros n dst.old }
{
    for byte in &mut dst[at..at + n] {
        *byte = 0;
    }
}
