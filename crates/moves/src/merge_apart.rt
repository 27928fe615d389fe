// Elements merged that stand apart, or that have 8 or 16 bytes, by predicate bytes: without zeroing, the elements of one that is
// zero are passed over, and not written with what they hold.
ghost use Rattle.std.specs.Prelude.{◌≡◌, ◌||◌, not, ◌+◌, ◌*◌, ◌%◌, ◌^◌, ◌<◌, eqb, length};
ghost use Rattle.tiles.specs.Element.{bytes_of};
ghost use Rattle.tiles.specs.Predicate.{active};
ghost use Rattle.moves.specs.Paired.{Paired, Governed, Grouped, part_of, set_in, merged};

use crate::element::{element_start, merge_bytes};
use crate::predicate::is_full;
use tiles::{ElementSize, Span};

// Merges the elements that go by one predicate byte b.
#[tactic(auto, using(crate::proofs::SpanLaws::writes, crate::proofs::SpanLaws::reads, crate::proofs::GroupLaws::bit_within))]
fn merge_few(dst: &mut [u8], to: Span, src: &[u8], from: Span, b: u8, zeroing: bool, m: usize)
    requires { Paired to from m (length dst.old) (length src.now) × Grouped m to.count }
    ensures { dst.new ≡ merged zeroing (set_in b m) to from m src.now dst.old }
{
    for j in 0..to.count {
        merge_bytes(
            dst,
            element_start(to, j),
            src,
            element_start(from, j),
            (b >> (j * m)) % 2 == 1,
            zeroing,
            m,
        );
    }
}

// Whether elements that go by the predicate byte b are written.
fn are_written(b: u8, zeroing: bool) -> bool
    ensures { result ≡ zeroing || not (eqb b 0) }
{
    zeroing || b != 0
}

// So many elements of a span, from element e on.
fn part(span: Span, e: usize, count: usize) -> Span
    requires { span.start + e * span.step < 2 ^ 64 }
    ensures { result ≡ part_of span e count }
{
    Span {
        start: element_start(span, e),
        count,
        ..span
    }
}

// Merges elements of m bytes, of which `per` go by one predicate byte. `merge_sized` writes both out, so that each size has a loop
// of its own; as const parameters they made loads of columns of bytes take up to 1.15 times the instructions.
#[tactic(auto, using(crate::proofs::GroupLaws::group_small, crate::proofs::GroupLaws::group_index, crate::proofs::GroupLaws::group_first, crate::proofs::SpanLaws::writes, crate::proofs::SpanLaws::reads))]
fn merge_apart(
    dst: &mut [u8],
    to: Span,
    src: &[u8],
    from: Span,
    p: &[u8],
    zeroing: bool,
    m: usize,
    per: usize,
)
    requires { Paired to from m (length dst.old) (length src.now) × Governed to m p.now × Grouped m per × (to.count % per ≡ 0) }
    ensures { dst.new ≡ merged zeroing (active p.now 0 m) to from m src.now dst.old }
{
    let n = to.count / per;
    for g in 0..n {
        let b = p[g * (per * m / 8)];
        if are_written(b, zeroing) {
            let e = g * per;
            merge_few(
                dst,
                part(to, e, per),
                src,
                part(from, e, per),
                b,
                zeroing,
                m,
            );
        }
    }
}

// The same for elements of a size: a copy where every element is active. Zeroing is a parameter at run time: as a const one it made
// rows of 16 bytes take 1.1 times the instructions, since this function was then inlined into both callers.
#[tactic(auto, using(crate::proofs::GroupLaws::size_grouped, crate::proofs::GroupLaws::size_whole, crate::proofs::SpanLaws::full_merged))]
pub(crate) fn merge_sized(
    dst: &mut [u8],
    to: Span,
    src: &[u8],
    from: Span,
    p: &[u8],
    size: ElementSize,
    zeroing: bool,
)
    requires { Paired to from (bytes_of size) (length dst.old) (length src.now) × Governed to (bytes_of size) p.now }
    ensures { dst.new ≡ merged zeroing (active p.now 0 (bytes_of size)) to from (bytes_of size) src.now dst.old }
{
    if is_full(p, size) {
        crate::copy(dst, to, src, from, size);
        return;
    }
    match size {
        ElementSize::Bits8 => merge_apart(dst, to, src, from, p, zeroing, 1, 8),
        ElementSize::Bits16 => merge_apart(dst, to, src, from, p, zeroing, 2, 4),
        ElementSize::Bits32 => merge_apart(dst, to, src, from, p, zeroing, 4, 2),
        ElementSize::Bits64 => merge_apart(dst, to, src, from, p, zeroing, 8, 1),
        ElementSize::Bits128 => merge_apart(dst, to, src, from, p, zeroing, 16, 1),
    }
}
