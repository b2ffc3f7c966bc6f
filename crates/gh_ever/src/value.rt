//! Values: what is told of them, and where they fit.

ghost use Rattle.std.specs.Prelude.{◌≡◌, ◌<◌, length};
ghost use Rattle.gh_base.specs.Shapes.{is_pointer, shape_at};
ghost use Rattle.gh_model.specs.Ever.{answer_of_value, first_value, fits, is_number};

use gh_base::{Answer, Shapes};
use gh_model::EverValue;

/// The answer that tells the value.
pub fn told(value: EverValue) -> Answer
    ensures { result ≡ answer_of_value value }
{
    match value {
        EverValue::Nil => Answer::Nil,
        EverValue::Int(n) => Answer::Int(n),
        EverValue::Ref(n) => Answer::Ref(n),
    }
}

/// That a pointer field takes nil or a reference, and a number field a number.
pub fn fits(pointer: bool, value: EverValue) -> bool
    ensures { result ≡ fits pointer value }
{
    match value {
        EverValue::Int(_) => !pointer,
        EverValue::Nil => pointer,
        EverValue::Ref(_) => pointer,
    }
}

/// That the value is a number.
pub fn is_number(value: EverValue) -> bool
    ensures { result ≡ is_number value }
{
    matches!(value, EverValue::Int(_))
}

/// What a field holds before anything is stored there.
pub fn first_value(pointer: bool) -> EverValue
    ensures { result ≡ first_value pointer }
{
    if pointer {
        EverValue::Nil
    } else {
        EverValue::Int(0)
    }
}

/// That field `k` of an object of type `kind` is a pointer.
pub fn is_pointer(shapes: &Shapes, kind: u32, k: u32) -> bool
    requires { kind < length shapes.now }
    ensures { result ≡ is_pointer (shape_at shapes.now kind) k }
{
    (shapes.bits(kind, k / 64) >> (k % 64)) & 1 == 1
}
