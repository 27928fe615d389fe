// Where the bytes of a load or store lie in memory (document 01 §5): addresses modulo 2^64.
ghost use Rattle.std.specs.Prelude.{◌≡◌, ℕ, ◌+◌, ◌*◌, ◌%◌, ◌^◌, ◌<◌, length};
ghost use Rattle.tiles.specs.Element.{bytes_of};
ghost use Rattle.semantics.specs.Access.{base_of, offset_of, address_at};

use tiles::ElementSize;

// What the offset register adds, before scaling: register 31 reads as zero.
fn offset_or_zero(x: &[u64], rm: u8) -> u64
    requires { rm < length x.now }
    ensures { result ≡ offset_of x.now rm }
{
    if rm == 31 {
        return 0;
    }
    x[rm as usize]
}

// An offset in elements, in bytes modulo 2^64.
fn scaled(offset: u64, size: ElementSize) -> u64
    ensures { result ≡ offset * bytes_of size % 2 ^ 64 }
{
    offset << size.doublings()
}

// The address of byte 0; byte k is k further, modulo 2^64. This is where wrapping sums and the shift of `scaled` are
// tied to the definition, for every size.
pub(crate) fn first_address(x: &[u64], size: ElementSize, rn: u8, rm: u8) -> u64
    requires { (rn < length x.now) × (rm < length x.now) }
    ensures { (k : ℕ) → (result + k) % 2 ^ 64 ≡ address_at (base_of x.now rn) (offset_of x.now rm) (bytes_of size) k }
{
    let base = x[rn as usize];
    let offset = offset_or_zero(x, rm);
    base.wrapping_add(scaled(offset, size))
}
