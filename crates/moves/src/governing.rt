// The predicate bytes that govern a vector: one bit for each of its bytes (document 01 §2).
ghost use Rattle.std.specs.Prelude.{◌≡◌, true, ◌<◌, length};
ghost use Rattle.settings.specs.Settings.{valid_vectors, lengths_of};
ghost use Rattle.moves.specs.Paired.{governing_part};

use settings::Settings;
use tiles::predicate_start;

// Those of a predicate register, as a part of P.
// Allowed vector lengths are a clause, as in crates/tiles/src/span.rt: docs/PROOFS.md names this function.
pub fn governing_bytes(number: u8, settings: Settings, p: &[u8]) -> &[u8]
    requires { (valid_vectors settings ≡ true) × (length p.now ≡ (lengths_of settings).p) × (number < 16) }
    ensures { result.now ≡ governing_part settings number p.now }
{
    let start = predicate_start(number, settings);
    &p[start..start + settings.vector_bytes as usize / 8]
}
