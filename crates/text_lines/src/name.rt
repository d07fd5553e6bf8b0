//! Names that a text gives as bytes.
ghost use Rattle.std.specs.Prelude.{◌≡◌, ◌<◌, [], length, IfSome, IfNone, Contains, slice_index_or};

use instance_model::Instance;
use std::str;

/// The number of the intervention of this name. Bytes that are no text are compared with each name.
pub fn find_name(inst: &Instance, name: &[u8]) -> Option<u32>
    ensures found { IfSome result (λ i. i < length inst.now.names) }
    ensures name { IfSome result (λ i. slice_index_or inst.now.names i [] ≡ name.now) }
    ensures none { IfNone result (Contains inst.now.names name.now → ⊥) }
{
    match str::from_utf8(name) {
        Ok(text) => inst.find(text),
        Err(_) => find_bytes(inst, name),
    }
}

fn find_bytes(inst: &Instance, name: &[u8]) -> Option<u32>
    ensures found { IfSome result (λ i. i < length inst.now.names) }
    ensures name { IfSome result (λ i. slice_index_or inst.now.names i [] ≡ name.now) }
    ensures none { IfNone result (Contains inst.now.names name.now → ⊥) }
{
    for i in 0..inst.interventions() {
        if inst.name(i).as_bytes() == name {
            return Some(i);
        }
    }
    None
}
