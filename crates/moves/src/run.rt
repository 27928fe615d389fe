// Predicated copies of contiguous bytes, of elements of at most 4 bytes: of these a predicate byte has several. No single element
// is tested under a predicate byte that has all bits that elements go by, or none (request 3): they are tested in `merge_mixed`
// alone, which requires that there is no such byte. Eight predicate bytes are looked at together: with no bit set they are passed
// over, with all set what goes by them is copied at once, and where each has set and clear bits it is merged 16 bytes at a time
// without a branch. What is left goes by predicate byte.
//
// Buffers and predicate stay parameters: as one struct with `bits` they are too much for the compiler to copy `merge_by_byte` into
// its callers, which took up to 1.3 times the instructions. From `merge_part` on they are whole, with an index and not as zipped
// chunks: three slices would be cut in step, one of them lent for writing, and each cut is a proof that it is within: no plainer.
// `InEights` is a clause and no type: p is a borrowed part, so a struct would only wrap the slice; `merge_run` passes the fact on.
ghost use Rattle.std.specs.Prelude.{◌≡◌, cond, ℕ, ◌+◌, ◌*◌, ◌≤◌, ◌<◌, length, get_or};
ghost use Rattle.std.specs.Int.Bits.{bit_and};
ghost use Rattle.settings.specs.Settings.{max_vector_bytes};
ghost use Rattle.tiles.specs.Element.{bytes_of};
ghost use Rattle.general.specs.Scatter.{scatter, onwards};
ghost use Rattle.tiles.specs.Predicate.{active};
ghost use Rattle.moves.specs.Eights.{bits_in, eight_at, eight_bits, InEights, AllMixed};
ghost use Rattle.moves.specs.Mask.{set_among, SomeBits, Covered, merged_by};
ghost use Rattle.moves.specs.Paired.{set_in};

use crate::bytes::{copy_bytes, copy_vector};
use crate::element::choose;
use crate::predicate::{eight, is_full};
use crate::size_bits::SizeBits;
use tiles::ElementSize;

// Merges N bytes by the predicate bytes `by`, of which each has some of the bits that elements go by, and not all: each byte is
// tested by its mask, all are read, then all are written. The one test of single elements in this file.
// No zip: a predicate byte goes for eight masks, and both buffers are read from an index on: no plainer.
fn merge_mixed<const N: usize>(
    dst: &mut [u8],
    at_dst: usize,
    src: &[u8],
    at_src: usize,
    by: &[u8],
    bits: SizeBits,
)
    requires lengths { (N ≤ 16) × (8 * length by.now ≡ N) × (at_dst + N ≤ length dst.old) × (at_src + N ≤ length src.now) }
    requires mixed { (i : ℕ) → i < length by.now → SomeBits (get_or by.now i 0) bits.size }
    ensures { dst.new ≡ scatter (onwards at_dst) (set_among by.now (bytes_of bits.size)) (λ (k : ℕ). get_or src.now (at_src + k) 0) N dst.old }
{
    let mut part = [0u8; N];
    for i in 0..N {
        let on = by[i / 8] & bits.masks[i] != 0;
        part[i] = choose(on, src[at_src + i], dst[at_dst + i]);
    }
    copy_bytes(dst, at_dst, &part, 0, N);
}

// Merges 8 bytes that go by one predicate byte, of which b has the bits that elements go by and no others: untested where it has
// all of them or none.
fn merge_byte(dst: &mut [u8], at_dst: usize, src: &[u8], at_src: usize, b: u8, bits: SizeBits)
    requires { (at_dst + 8 ≤ length dst.old) × (at_src + 8 ≤ length src.now) × (bit_and b (bits_in bits.size 0) ≡ b) }
    ensures { dst.new ≡ scatter (onwards at_dst) (set_in b (bytes_of bits.size)) (λ (k : ℕ). get_or src.now (at_src + k) 0) 8 dst.old }
{
    if b == bits.one() {
        copy_vector(dst, at_dst, src, at_src, 8);
    } else if b != 0 {
        merge_mixed::<8>(dst, at_dst, src, at_src, &[b], bits);
    }
}

// Merges what goes by n predicate bytes, one after another, from predicate byte `first` on.
fn merge_by_byte(dst: &mut [u8], src: &[u8], p: &[u8], first: usize, n: usize, bits: SizeBits)
    requires { Covered p.now first n dst.old src.now }
    ensures { dst.new ≡ merged_by p.now bits.size src.now first n dst.old }
{
    for i in first..first + n {
        merge_byte(dst, i * 8, src, i * 8, p[i] & bits.one(), bits);
    }
}

// The same for eight predicate bytes each of which has set and clear bits, two at a time and without a branch.
fn merge_eight(dst: &mut [u8], src: &[u8], p: &[u8], first: usize, bits: SizeBits)
    requires within { Covered p.now first 8 dst.old src.now }
    requires mixed { AllMixed (bit_and (eight_at p.now first) (eight_bits bits.size)) bits.size }
    ensures { dst.new ≡ merged_by p.now bits.size src.now first 8 dst.old }
{
    for j in 0..4 {
        let i = first + j * 2;
        merge_mixed::<16>(dst, i * 8, src, i * 8, &p[i..i + 2], bits);
    }
}

// The same at once, if all eight have no bit that elements go by set, or all have all, or all are seen to have set and clear ones.
// Whether it was done.
fn merge_alike(dst: &mut [u8], src: &[u8], p: &[u8], first: usize, bits: SizeBits) -> bool
    requires { Covered p.now first 8 dst.old src.now }
    ensures { dst.new ≡ cond result (merged_by p.now bits.size src.now first 8 dst.old) dst.old }
{
    let v = eight(p, first) & bits.eight;
    if v == 0 {
        return true;
    }
    if bits.are_mixed(v) {
        merge_eight(dst, src, p, first, bits);
        return true;
    }
    if v == bits.eight {
        copy_vector(dst, first * 8, src, first * 8, 64);
        return true;
    }
    false
}

// The same, whatever they are.
fn merge_block(dst: &mut [u8], src: &[u8], p: &[u8], first: usize, bits: SizeBits)
    requires { Covered p.now first 8 dst.old src.now }
    ensures { dst.new ≡ merged_by p.now bits.size src.now first 8 dst.old }
{
    if !merge_alike(dst, src, p, first, bits) {
        merge_by_byte(dst, src, p, first, 8, bits);
    }
}

// Merges what goes by all predicate bytes, eight at a time; fewer than eight one by one.
fn merge_part(dst: &mut [u8], src: &[u8], p: &[u8], bits: SizeBits)
    requires { InEights p.now × Covered p.now 0 (length p.now) dst.old src.now }
    ensures { dst.new ≡ merged_by p.now bits.size src.now 0 (length p.now) dst.old }
{
    if p.len() < 8 {
        merge_by_byte(dst, src, p, 0, p.len(), bits);
        return;
    }
    for g in 0..p.len() / 8 {
        merge_block(dst, src, p, g * 8, bits);
    }
}

// Copies the active elements of a vector, under the governing predicate whose bytes are p; the bytes of the others stay. The bytes
// of the vector are lent as parts: so there is one index for both.
pub(crate) fn merge_run(
    dst: &mut [u8],
    at_dst: usize,
    src: &[u8],
    at_src: usize,
    p: &[u8],
    size: ElementSize,
)
    requires { (bytes_of size ≤ 4) × InEights p.now × (8 * length p.now ≤ max_vector_bytes) × (at_dst + 8 * length p.now ≤ length dst.old) × (at_src + 8 * length p.now ≤ length src.now) }
    ensures { dst.new ≡ scatter (onwards at_dst) (active p.now 0 (bytes_of size)) (λ (k : ℕ). get_or src.now (at_src + k) 0) (8 * length p.now) dst.old }
{
    let n = 8 * p.len();
    if is_full(p, size) {
        copy_vector(dst, at_dst, src, at_src, n);
    } else {
        let end_dst = at_dst + n;
        let end_src = at_src + n;
        merge_part(
            &mut dst[at_dst..end_dst],
            &src[at_src..end_src],
            p,
            SizeBits::of(size),
        );
    }
}
