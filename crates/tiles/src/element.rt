// The five element sizes (document 01 §3).
ghost use Rattle.std.specs.Prelude.{◌≡◌, ◌/◌, ◌<◌};
ghost use Rattle.tiles.specs.Element.{bytes_of, size_of, doublings_of};

// An element's width, named as Arm names its classes of encodings, and numbered by how often a byte is doubled.
#[derive(Clone, Copy, Debug, PartialEq, Eq)]
pub enum ElementSize {
    Bits8 = 0,
    Bits16 = 1,
    Bits32 = 2,
    Bits64 = 3,
    Bits128 = 4,
}

impl ElementSize {
    // How often a byte is doubled: what goes by a size is a shift by this, and no jump or division.
    pub fn doublings(self) -> u32
        ensures { (result ≡ doublings_of self) × (result < 5) }
    {
        self as u32
    }

    // An element's bytes, which is also how many tiles there are of the size.
    pub fn bytes(self) -> u8
        ensures { (result ≡ bytes_of self) × (result < 17) }
    {
        1u8 << self.doublings()
    }

    // The size with this many bytes; Bits128 where no size has. No TryFrom: it cannot fail, as `size_of` of specs/Element.antt cannot,
    // since `unflatten` and `is_size` of planner tell by the bytes of the size that was read whether it was one.
    pub fn of_bytes(bytes: u8) -> ElementSize
        ensures { result ≡ size_of bytes }
    {
        match bytes {
            1 => ElementSize::Bits8,
            2 => ElementSize::Bits16,
            4 => ElementSize::Bits32,
            8 => ElementSize::Bits64,
            _ => ElementSize::Bits128,
        }
    }
}

// How many whole elements so many bytes have: all those of a vector, or those before the element that a byte is of, which is
// that element's number.
pub fn elements_in(bytes: usize, size: ElementSize) -> usize
    ensures { result ≡ bytes / bytes_of size }
{
    bytes >> size.doublings()
}
