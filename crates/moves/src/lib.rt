// Elements moved from one place to another, wherever they lie: rows and columns of tiles, registers, vectors of the ZA array
// and stretches of memory are all a Span of the crate tiles. Each function is a `scatter` of the crate general; ranges are
// required, since only crates of this project call them.
// Buffers, spans and predicate stay parameters: docs/PROOFS.md names copy, take, merge, replace and replace_partly, and a type
// that holds `Paired` or `Governed` would ask more of whoever calls them; below them a record that a call takes goes through
// memory (`anew`).
#![tactic(auto)]

ghost use Rattle.std.specs.Prelude.{◌≡◌, true, false, ◌*◌, ◌≤◌, length};
ghost use Rattle.general.specs.Scatter.{scatter, all, zeros};
ghost use Rattle.tiles.specs.Element.{bytes_of};
ghost use Rattle.tiles.specs.Predicate.{active};
ghost use Rattle.tiles.specs.Span.{span_at};
ghost use Rattle.moves.specs.Paired.{Paired, Governed, are_runs, merged_as_run, value_at, merged};

use crate::apart::{copy_apart, take_apart};
use crate::bytes::{clear_bytes, copy_vector};
use crate::merge_apart::merge_sized;
use crate::predicate::is_full;
use crate::run::merge_run;
use tiles::{ElementSize, Span};

mod apart;
mod bytes;
mod element;
mod governing;
mod merge_apart;
mod predicate;
mod run;
mod size_bits;

pub use governing::governing_bytes;

// Whether the elements of both follow each other without a gap.
fn are_runs(a: Span, b: Span, size: ElementSize) -> bool
    ensures { result ≡ are_runs a b (bytes_of size) }
{
    let m = size.bytes() as usize;
    a.step == m && b.step == m
}

// Copies elements.
pub fn copy(dst: &mut [u8], to: Span, src: &[u8], from: Span, size: ElementSize)
    requires { Paired to from (bytes_of size) (length dst.old) (length src.now) }
    ensures { dst.new ≡ scatter (span_at to (bytes_of size)) all (value_at src.now from (bytes_of size)) (to.count * bytes_of size) dst.old }
{
    if are_runs(to, from, size) {
        copy_vector(
            dst,
            to.start,
            src,
            from.start,
            to.count * size.bytes() as usize,
        );
    } else {
        copy_apart(dst, to, src, from, size);
    }
}

// Copies elements, and sets those that were copied to zero.
pub fn take(dst: &mut [u8], to: Span, src: &mut [u8], from: Span, size: ElementSize)
    requires { Paired to from (bytes_of size) (length dst.old) (length src.old) × (bytes_of size ≤ from.step) }
    ensures dst_after { dst.new ≡ scatter (span_at to (bytes_of size)) all (value_at src.old from (bytes_of size)) (to.count * bytes_of size) dst.old }
    ensures src_after { src.new ≡ scatter (span_at from (bytes_of size)) all zeros (to.count * bytes_of size) src.old }
{
    if are_runs(to, from, size) {
        let n = to.count * size.bytes() as usize;
        copy_vector(dst, to.start, src, from.start, n);
        clear_bytes(src, from.start, n);
    } else {
        take_apart(dst, to, src, from, size);
    }
}

// Copies the active elements under a governing predicate whose bytes are p; the others become zero, or stay. A run is cleared
// without asking whether an element is inactive.
fn merge_spans<const ZEROING: bool>(
    dst: &mut [u8],
    to: Span,
    src: &[u8],
    from: Span,
    p: &[u8],
    size: ElementSize,
)
    requires { Paired to from (bytes_of size) (length dst.old) (length src.now) × Governed to (bytes_of size) p.now }
    ensures { dst.new ≡ merged ZEROING (active p.now 0 (bytes_of size)) to from (bytes_of size) src.now dst.old }
{
    if is_merged_run(to, from, size) {
        if ZEROING {
            clear_bytes(dst, to.start, 8 * p.len());
        }
        merge_run(dst, to.start, src, from.start, p, size);
    } else {
        merge_sized(dst, anew(to), src, anew(from), p, size, ZEROING);
    }
}

// Copies the active elements under a governing predicate whose bytes are p; the others stay.
pub fn merge(dst: &mut [u8], to: Span, src: &[u8], from: Span, p: &[u8], size: ElementSize)
    requires { Paired to from (bytes_of size) (length dst.old) (length src.now) × Governed to (bytes_of size) p.now }
    ensures { dst.new ≡ merged false (active p.now 0 (bytes_of size)) to from (bytes_of size) src.now dst.old }
{
    merge_spans::<false>(dst, to, src, from, p, size);
}

// The same, and the others become zero.
pub fn replace(dst: &mut [u8], to: Span, src: &[u8], from: Span, p: &[u8], size: ElementSize)
    requires { Paired to from (bytes_of size) (length dst.old) (length src.now) × Governed to (bytes_of size) p.now }
    ensures { dst.new ≡ merged true (active p.now 0 (bytes_of size)) to from (bytes_of size) src.now dst.old }
{
    if is_full(p, size) {
        copy(dst, to, src, from, size);
    } else {
        replace_partly(dst, to, src, from, p, size);
    }
}

// The same for any predicate, but made for one under which an element is inactive.
pub fn replace_partly(dst: &mut [u8], to: Span, src: &[u8], from: Span, p: &[u8], size: ElementSize)
    requires { Paired to from (bytes_of size) (length dst.old) (length src.now) × Governed to (bytes_of size) p.now }
    ensures { dst.new ≡ merged true (active p.now 0 (bytes_of size)) to from (bytes_of size) src.now dst.old }
{
    merge_spans::<true>(dst, to, src, from, p, size);
}

// Whether elements are merged as a run: elements of 8 and 16 bytes, which have a predicate byte or two each, go one by one.
fn is_merged_run(a: Span, b: Span, size: ElementSize) -> bool
    ensures { result ≡ merged_as_run a b (bytes_of size) }
{
    size.bytes() < 8 && are_runs(a, b, size)
}

// The same span, made where it is handed on. A record that a call takes goes through memory, and is stored where it is made:
// so the spans are not stored where elements are merged as a run, whose moves of 16 bytes would take 1.02 times the instructions.
fn anew(span: Span) -> Span
    ensures { result ≡ span }
{
    Span { ..span }
}
