// Elements that stand apart, as those of a vertical slice do, one after another.
ghost use Rattle.std.specs.Prelude.{◌≡◌, ◌*◌, ◌≤◌, length};
ghost use Rattle.general.specs.Scatter.{scatter, all, zeros};
ghost use Rattle.tiles.specs.Element.{bytes_of};
ghost use Rattle.tiles.specs.Span.{span_at};
ghost use Rattle.moves.specs.Paired.{Paired, value_at};

use crate::element::{copy_element, element_start};
use tiles::{ElementSize, Span};

// Copies elements.
#[tactic(auto, using(crate::proofs::SpanLaws::writes, crate::proofs::SpanLaws::reads))]
pub(crate) fn copy_apart(dst: &mut [u8], to: Span, src: &[u8], from: Span, size: ElementSize)
    requires { Paired to from (bytes_of size) (length dst.old) (length src.now) }
    ensures { dst.new ≡ scatter (span_at to (bytes_of size)) all (value_at src.now from (bytes_of size)) (to.count * bytes_of size) dst.old }
{
    for e in 0..to.count {
        copy_element(dst, element_start(to, e), src, element_start(from, e), size);
    }
}

// Copies elements, and sets those that were copied to zero. One pass: in long vectors each element is on a cache line of its own.
// It is no `copy_apart` with a switch, whose src is not lent for writing.
#[tactic(auto, using(crate::proofs::SpanLaws::writes, crate::proofs::SpanLaws::reads, crate::proofs::SpanLaws::bytes_of_range))]
pub(crate) fn take_apart(dst: &mut [u8], to: Span, src: &mut [u8], from: Span, size: ElementSize)
    requires { Paired to from (bytes_of size) (length dst.old) (length src.old) × (bytes_of size ≤ from.step) }
    ensures dst_after { dst.new ≡ scatter (span_at to (bytes_of size)) all (value_at src.old from (bytes_of size)) (to.count * bytes_of size) dst.old }
    ensures src_after { src.new ≡ scatter (span_at from (bytes_of size)) all zeros (to.count * bytes_of size) src.old }
{
    for e in 0..to.count {
        let at = element_start(from, e);
        copy_element(dst, element_start(to, e), src, at, size);
        copy_element(src, at, &[0u8; 16], 0, size);
    }
}
