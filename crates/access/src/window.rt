// A vector of which memory has a part only: memory ends inside it, or begins there.
ghost use Rattle.std.specs.Prelude.{◌≡◌, ◌+◌, ◌<◌, ◌≤◌, length};
ghost use Rattle.settings.specs.Settings.{max_vector_bytes};

// Which bytes of a vector lie in memory: the first `head`, in memory from index `at` on, and from byte `skip` on `tail` more,
// which are memory's first. (The second part is one that begins before memory does, or goes past address 2^64 to 0.)
#[derive(Clone, Copy, Debug, PartialEq, Eq)]
pub struct Window {
    pub at: usize,
    pub head: usize,
    pub skip: usize,
    pub tail: usize,
    ghost ordered: { head ≤ skip },
    ghost ends: { skip + tail ≤ max_vector_bytes },
}

// Copies one of the two parts of a window, if it has bytes: mostly one of them is empty, or both are, and a `memcpy` of no bytes is a call all the
// same. Without the test a store of which memory has no byte takes up to 1.14 times the instructions.
fn copy_part(to: &mut [u8], from: &[u8])
    requires { length to.old ≡ length from.now }
    ensures { to.new ≡ from.now }
{
    if !from.is_empty() {
        to.copy_from_slice(from);
    }
}

impl Window {
    ghost use Rattle.access.specs.Window.{Windowed, Fits, window_read, window_written};

    // The window of a vector of n bytes whose byte 0 would have index `at` of memory, counted modulo 2^64.
    pub(crate) fn of(at: u64, n: usize, memory_bytes: usize) -> Window
        requires { (0 < n) × (n ≤ max_vector_bytes) }
        ensures { Windowed at n memory_bytes result }
    {
        let skip = (u64::MAX - at).min(n as u64 - 1) as usize + 1;
        let tail = memory_bytes.min(n - skip);
        if at < memory_bytes as u64 {
            Window {
                at: at as usize,
                head: (memory_bytes - at as usize).min(n),
                skip,
                tail,
            }
        } else {
            Window {
                at: 0,
                head: 0,
                skip,
                tail,
            }
        }
    }

    // Copies what memory has of a vector to its place there.
    pub(crate) fn read(self, memory: &[u8], vector: &mut [u8])
        requires { Fits self (length vector.old) (length memory.now) }
        ensures { vector.new ≡ window_read self memory.now vector.old }
    {
        copy_part(
            &mut vector[..self.head],
            &memory[self.at..self.at + self.head],
        );
        copy_part(
            &mut vector[self.skip..self.skip + self.tail],
            &memory[..self.tail],
        );
    }

    // The way back.
    pub(crate) fn write(self, vector: &[u8], memory: &mut [u8])
        requires { Fits self (length vector.now) (length memory.old) }
        ensures { memory.new ≡ window_written self vector.now memory.old }
    {
        copy_part(
            &mut memory[self.at..self.at + self.head],
            &vector[..self.head],
        );
        copy_part(
            &mut memory[..self.tail],
            &vector[self.skip..self.skip + self.tail],
        );
    }
}
