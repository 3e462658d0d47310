ghost use Rattle.std.specs.Prelude.{◌≡◌, ◌++◌, ◌∷◌, [], IfOk, OnOk};
ghost use Rattle.std.specs.Option.{option_map};
ghost use Rattle.caf_json.specs.Digits.{unhex};

use caf_text::pair_value;
use caf_types::Memory;
use std::alloc::Global;

fn add_byte(bytes: &mut Vec<u8>, byte: u8) -> Result<(), Memory>
    ensures { OnOk result (bytes.new.items ≡ bytes.old.items ++ byte ∷ []) }
{
    match bytes.push(byte) {
        Ok(()) => Ok(()),
        Err(_) => Err(Memory),
    }
}

#[tactic(auto, using(crate::proofs::DigitsLoopLemmas::no_pair, crate::proofs::DigitsLoopLemmas::half_left))]
/// The bytes of pairs of lower-case hexadecimal digits.
pub(crate) fn bytes_of_digits(alloc: Global, digits: &[u8]) -> Result<Option<Vec<u8>>, Memory>
    ensures { IfOk result (λ found. option_map (λ bytes. bytes.items) found ≡ unhex digits.now) }
{
    let mut bytes = Vec::new(alloc);
    let mut rest = digits;
    while rest.len() >= 2 {
        let Some(byte) = pair_value(rest[0], rest[1]) else {
            return Ok(None);
        };
        add_byte(&mut bytes, byte)?;
        let (_, after) = rest.split_at(2);
        rest = after;
    }
    if rest.is_empty() {
        Ok(Some(bytes))
    } else {
        Ok(None)
    }
}
