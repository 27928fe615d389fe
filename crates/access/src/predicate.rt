// The governing predicate of a load or store: one bit for each byte of a vector (document 01 §2 and §3).
ghost use Rattle.std.specs.Prelude.{◌≡◌, ◌*◌, ◌/◌, ◌≤◌, length};
ghost use Rattle.settings.specs.Settings.{max_vector_bytes};
ghost use Rattle.tiles.specs.Element.{bytes_of};
ghost use Rattle.tiles.specs.Predicate.{active};
ghost use Rattle.access.specs.Promise.{First};

use tiles::ElementSize;

// The first byte of the element that byte k is of.
fn element_start(k: usize, size: ElementSize) -> usize
    ensures { (result ≡ k / bytes_of size * bytes_of size) × (result ≤ k) }
{
    let d = size.doublings();
    k >> d << d
}

// The first byte from byte `from` on, and before byte `to`, that is of an active element. No `for` or library's search counts
// so: it goes on by predicate bytes that are zero, under which no element is active, and by elements that are not.
pub(crate) fn first_active(
    governing: &[u8],
    size: ElementSize,
    from: usize,
    to: usize,
) -> Option<usize>
    requires { (to ≤ 8 * length governing.now) × (to ≤ max_vector_bytes) }
    ensures { First (active governing.now 0 (bytes_of size)) from to result }
{
    let mut k = from;
    while k < to {
        let i = element_start(k, size);
        let b = governing[i / 8];
        if b == 0 {
            k = k / 8 * 8 + 8;
        } else {
            if (b >> (i % 8)) % 2 == 1 {
                return Some(k);
            }
            k = i + size.bytes() as usize;
        }
    }
    None
}
