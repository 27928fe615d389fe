// Elements, one at a time: their length is written out for each size, so that one is a load and a store.
ghost use Rattle.std.specs.Prelude.{cond, ◌||◌, ◌≡◌, ℕ, ◌+◌, ◌*◌, ◌^◌, ◌<◌, ◌≤◌, length, get_or};
ghost use Rattle.tiles.specs.Element.{bytes_of};
ghost use Rattle.general.specs.Scatter.{scatter, all, onwards};

use crate::bytes::{copy_bytes, copy_vector};
use tiles::{ElementSize, Span};

// Where element e of a span starts.
pub(crate) fn element_start(span: Span, e: usize) -> usize
    requires { span.start + e * span.step < 2 ^ 64 }
    ensures { result ≡ span.start + e * span.step }
{
    span.start + e * span.step
}

// Copies one element.
pub(crate) fn copy_element(
    dst: &mut [u8],
    at_dst: usize,
    src: &[u8],
    at_src: usize,
    size: ElementSize,
)
    requires { (at_dst + bytes_of size ≤ length dst.old) × (at_src + bytes_of size ≤ length src.now) }
    ensures { dst.new ≡ scatter (onwards at_dst) all (λ (k : ℕ). get_or src.now (at_src + k) 0) (bytes_of size) dst.old }
{
    match size {
        ElementSize::Bits8 => copy_vector(dst, at_dst, src, at_src, 1),
        ElementSize::Bits16 => copy_vector(dst, at_dst, src, at_src, 2),
        ElementSize::Bits32 => copy_vector(dst, at_dst, src, at_src, 4),
        ElementSize::Bits64 => copy_vector(dst, at_dst, src, at_src, 8),
        ElementSize::Bits128 => copy_vector(dst, at_dst, src, at_src, 16),
    }
}

// a where the test holds, else b.
pub(crate) fn choose(on: bool, a: u8, b: u8) -> u8
    ensures { result ≡ cond on a b }
{
    if on { a } else { b }
}

// Copies n bytes, at most 16, where the test holds; where it fails they stay, or become zero. Each way they are written,
// without a branch. No zip: of both buffers a part would be cut first, to be read beside the local array: no plainer.
pub(crate) fn merge_bytes(
    dst: &mut [u8],
    at_dst: usize,
    src: &[u8],
    at_src: usize,
    on: bool,
    zeroing: bool,
    n: usize,
)
    requires { (n ≤ 16) × (at_dst + n ≤ length dst.old) × (at_src + n ≤ length src.now) }
    ensures { dst.new ≡ scatter (onwards at_dst) (λ (k : ℕ). zeroing || on) (λ (k : ℕ). cond on (get_or src.now (at_src + k) 0) 0) n dst.old }
{
    let mut part = [0u8; 16];
    for i in 0..n {
        let other = choose(zeroing, 0, dst[at_dst + i]);
        part[i] = choose(on, src[at_src + i], other);
    }
    copy_bytes(dst, at_dst, &part, 0, n);
}
