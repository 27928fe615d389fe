// Settings as hosts lend them: numbers in a fixed order, of which the last may be missing.
ghost use Rattle.std.specs.Prelude.{◌≡◌, get_or};
ghost use Rattle.settings.specs.Lent.{settings_with, settings_in};

use crate::Settings;

// The number at a place, or what it is where it is missing.
fn item(items: &[u64], i: usize, missing: u64) -> u64
    ensures { result ≡ get_or items.now i missing }
{
    items.get(i).copied().unwrap_or(missing)
}

// Settings of which every number is given; the sixth says whether the stack check is off.
fn settings_with(items: [u64; 6], largest_vector_bytes: u64) -> Settings
    ensures { result ≡ settings_with items largest_vector_bytes }
{
    Settings {
        vector_bytes: items[0],
        level: items[1],
        streaming: items[2] != 0,
        za: items[3] != 0,
        memory_address: items[4],
        stack_check: items[5] == 0,
        largest_vector_bytes,
    }
}

// The settings that numbers are. Vector length and level must be given, and no more than there are settings; else these are
// settings that no machine has, so that every call on them is answered 1. No TryFrom: `settings_in` says which they are, and a check answers them.
impl From<&[u64]> for Settings {
    ghost from_gives = { λ items settings. settings ≡ settings_in items.now };

    fn from(items: &[u64]) -> Settings {
        // Hosts give all, as a rule: one test then, and not one for each.
        if let [a, b, c, d, e, f, largest] = *items {
            return settings_with([a, b, c, d, e, f], largest);
        }
        let count = items.len();
        if count < 2 {
            return Settings::unchecked(0, 0, 0);
        }
        if 7 < count {
            return Settings::unchecked(0, 0, 0);
        }
        settings_with(
            [
                items[0],
                items[1],
                item(items, 2, 0),
                item(items, 3, 0),
                item(items, 4, 0),
                item(items, 5, 0),
            ],
            item(items, 6, items[0]),
        )
    }
}
