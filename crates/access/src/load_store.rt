// The load of a tile slice's active elements from memory, the others of which become zero, and the store of them to memory
// (document 01 §5). Settings and buffers stay parameters, as perform.rt of execute says.
ghost use Rattle.std.specs.Prelude.{◌≡◌, true, false, length};
ghost use Rattle.settings.specs.Settings.{max_vector_bytes, lengths_of};
ghost use Rattle.tiles.specs.Element.{bytes_of};
ghost use Rattle.tiles.specs.Predicate.{active};
ghost use Rattle.moves.specs.Paired.{Paired, Governed, merged};
ghost use Rattle.encoding.specs.Range.{AccessInRange};
ghost use Rattle.semantics.specs.Steps.{Sized};
ghost use Rattle.access.specs.Window.{Fits, blank, window_read, window_written};
ghost use Rattle.access.specs.Promise.{Accesses};

use crate::reach::{Reach, find_reach};
use crate::window::Window;
use encoding::SliceAccess;
use semantics::Refusal;
use settings::Settings;
use tiles::{ElementSize, Span, run_from, slice_span};

// Loads a slice of which memory has every active byte, by way of a vector.
fn load_parts(
    za: &mut [u8],
    slice: Span,
    memory: &[u8],
    w: Window,
    run: Span,
    p: &[u8],
    size: ElementSize,
)
    requires { Paired slice run (bytes_of size) (length za.old) max_vector_bytes × Governed slice (bytes_of size) p.now × Fits w max_vector_bytes (length memory.now) }
    ensures { za.new ≡ merged true (active p.now 0 (bytes_of size)) slice run (bytes_of size) (window_read w memory.now blank) za.old }
{
    let mut vector = [0u8; Settings::MAX_VECTOR_BYTES as usize];
    w.read(memory, &mut vector);
    moves::replace_partly(za, slice, &vector, run, p, size);
}

// The same for a store: what it does not write goes back as it was. The two differ in which buffer they write, and in how (`merge`, `replace_partly`).
fn store_parts(
    memory: &mut [u8],
    w: Window,
    za: &[u8],
    slice: Span,
    run: Span,
    p: &[u8],
    size: ElementSize,
)
    requires { Paired run slice (bytes_of size) max_vector_bytes (length za.now) × Governed run (bytes_of size) p.now × Fits w max_vector_bytes (length memory.old) }
    ensures { memory.new ≡ window_written w (merged false (active p.now 0 (bytes_of size)) run slice (bytes_of size) za.now (window_read w memory.old blank)) memory.old }
{
    let mut vector = [0u8; Settings::MAX_VECTOR_BYTES as usize];
    w.read(memory, &mut vector);
    moves::merge(&mut vector, run, za, slice, p, size);
    w.write(&vector, memory);
}

// A load, or a store. Nothing is written unless every active byte is in memory. One function with a switch, so that what both ask first has one caller
// and is inlined (docs/DECISIONS.md).
pub fn access(
    stores: bool,
    o: SliceAccess,
    settings: Settings,
    x: &[u64],
    p: &[u8],
    za: &mut [u8],
    memory: &mut [u8],
) -> Result<(), Refusal>
    requires { Sized settings (length x.now) (lengths_of settings).z (length p.now) (length za.old) (length memory.old) × AccessInRange o }
    ensures { Accesses settings stores o x.now p.now za.old memory.old result za.new memory.new }
{
    let size = o.slice.size;
    let governing = moves::governing_bytes(o.pg, settings, p);
    let reach = find_reach(size, o.rn, o.rm, settings, x, governing, memory.len())?;
    let slice = slice_span(o.slice, settings, x);
    match reach {
        Reach::Whole(at) => {
            let vector = run_from(at, settings, size);
            if stores {
                moves::merge(memory, vector, za, slice, governing, size);
            } else {
                moves::replace(za, slice, memory, vector, governing, size);
            }
        }
        Reach::Parts(window) => {
            let run = run_from(0, settings, size);
            if stores {
                store_parts(memory, window, za, slice, run, governing, size);
            } else {
                load_parts(za, slice, memory, window, run, governing, size);
            }
        }
    }
    Ok(())
}
