// What elements of a size go by where they are merged as a run: bits of predicate bytes.
ghost use Rattle.std.specs.Prelude.{◌≡◌, true, ◌≤◌};
ghost use Rattle.tiles.specs.Element.{bytes_of};
ghost use Rattle.moves.specs.Eights.{bits_in, eight_bits, AllMixed};
ghost use Rattle.moves.specs.Mask.{Masks};

use crate::predicate::element_bits;
use tiles::ElementSize;

// The bits that elements of a size go by, which is one of at most 4 bytes: those of eight predicate bytes as one number, and as
// masks. Mask i has one bit, by which byte i of 16 goes, bit i / m * m mod 8 of its predicate byte.
#[derive(Clone, Copy, Debug, PartialEq, Eq)]
pub(crate) struct SizeBits {
    pub(crate) size: ElementSize,
    pub(crate) eight: u64,
    pub(crate) masks: [u8; 16],
    ghost few: { bytes_of size ≤ 4 },
    ghost all: { eight ≡ eight_bits size },
    ghost table: { Masks (bytes_of size) masks },
}

impl SizeBits {
    pub(crate) fn of(size: ElementSize) -> SizeBits
        requires { bytes_of size ≤ 4 }
        ensures { result.size ≡ size }
    {
        SizeBits {
            size,
            eight: element_bits(size),
            masks: masks(size),
        }
    }

    // Those of one predicate byte: each has the same.
    pub(crate) fn one(self) -> u8
        ensures { result ≡ bits_in self.size 0 }
    {
        (self.eight % 256) as u8
    }

    // Whether in each of eight bytes, of which v has these bits, a bit is set and another is clear, as the lower seven bits of each
    // tell. A byte of at most 127 to which 127 is added has its highest bit set exactly if it is not 0.
    pub(crate) fn are_mixed(self, v: u64) -> bool
        ensures { result ≡ true → AllMixed v self.size }
    {
        let set = (v & 0x7F7F7F7F7F7F7F7F) + 0x7F7F7F7F7F7F7F7F;
        let clear = ((v ^ self.eight) & 0x7F7F7F7F7F7F7F7F) + 0x7F7F7F7F7F7F7F7F;
        (set & clear & 0x8080808080808080) == 0x8080808080808080
    }
}

// The table is a local, and which row is wanted is only known when the function runs: then the compiler makes a row one load.
fn masks(size: ElementSize) -> [u8; 16]
    requires { bytes_of size ≤ 4 }
    ensures { Masks (bytes_of size) result }
{
    let row = size.doublings() as usize;
    let rows = [
        [1u8, 2, 4, 8, 16, 32, 64, 128, 1, 2, 4, 8, 16, 32, 64, 128],
        [1, 1, 4, 4, 16, 16, 64, 64, 1, 1, 4, 4, 16, 16, 64, 64],
        [1, 1, 1, 1, 16, 16, 16, 16, 1, 1, 1, 1, 16, 16, 16, 16],
    ];
    rows[row]
}
