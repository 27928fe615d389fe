// Performing a word on buffers whose lengths were checked: answers 3 to 7 of document 01 §6 in order,
// then the operation.
ghost use Rattle.std.specs.Prelude.{length};
ghost use Rattle.decoder.specs.Steps.{operation_in};
ghost use Rattle.encoding.specs.Range.{InRange};
ghost use Rattle.semantics.specs.State.{state_of};
ghost use Rattle.semantics.specs.Promise.{Executes};
ghost use Rattle.semantics.specs.Steps.{Performs, Sized};

use crate::{array, tile};
use decoder::Class;
use semantics::Refusal;
use settings::Settings;

// Decodes a word and performs its operation. The buffers stay parameters: as one struct, tried and as fast, this, `operate` and the loop of listings
// would each have to promise that settings, X and P and what the struct borrows stay, which parameters say by their types.
pub fn perform(
    settings: Settings,
    word: u32,
    x: &[u64],
    z: &mut [u8],
    p: &[u8],
    za: &mut [u8],
    memory: &mut [u8],
) -> Result<(), Refusal>
    requires { Sized settings (length x.now) (length z.old) (length p.now) (length za.old) (length memory.old) }
    ensures { Executes settings word (state_of x.now z.old p.now za.old memory.old) result (state_of x.now z.new p.now za.new memory.new) }
{
    let Some(class) = decoder::classify(word, settings.level) else {
        return Err(Refusal::Undecodable);
    };
    if !settings.streaming {
        return Err(Refusal::StreamingOff);
    }
    if !settings.za {
        return Err(Refusal::ZaOff);
    }
    operate(class, word, settings, x, z, p, za, memory)
}

// Performs the operation of a word, whose record is made here, where it is used; a load or store may still be refused.
fn operate(
    class: Class,
    word: u32,
    settings: Settings,
    x: &[u64],
    z: &mut [u8],
    p: &[u8],
    za: &mut [u8],
    memory: &mut [u8],
) -> Result<(), Refusal>
    requires { Sized settings (length x.now) (length z.old) (length p.now) (length za.old) (length memory.old) × InRange (operation_in class word) }
    ensures { Performs settings (operation_in class word) (state_of x.now z.old p.now za.old memory.old) result (state_of x.now z.new p.now za.new memory.new) }
{
    match class {
        Class::ToTile(size) => {
            tile::move_to_tile(decoder::to_tile_in(size, word), settings, x, z, p, za);
            Ok(())
        }
        Class::FromTile(size) => {
            tile::move_from_tile(decoder::predicated_in(size, word), settings, x, z, p, za);
            Ok(())
        }
        Class::Take(size) => {
            tile::take_from_tile(decoder::whole_in(size, word), settings, x, z, p, za);
            Ok(())
        }
        Class::Array(registers) => {
            let zeroes = decoder::zeroes_in(word);
            let group = decoder::array_in(registers, word);
            array::take_from_array(zeroes, group, settings, x, z, p, za);
            Ok(())
        }
        Class::Access(size) => {
            let stores = decoder::stores_in(word);
            let o = decoder::access_in(size, word);
            access::access(stores, o, settings, x, p, za, memory)
        }
    }
}
