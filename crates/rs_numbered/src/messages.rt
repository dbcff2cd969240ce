//! Messages that were received, as C sees them.

ghost use Rattle.std.specs.Prelude.{◌≡◌};
ghost use Rattle.rs_numbered.specs.Messages as spec;

use rs_model::{Label, Value};

/// A message that was received: its label, the kind of its value, and the value, or how many bytes or numbers it has.
#[repr(C)]
#[derive(Clone, Copy)]
pub struct MessageView {
    pub label: u32,
    pub kind: u32,
    pub natural: u64,
    pub whole: i64,
    pub length: usize,
}

/// The message with the label and the value.
pub fn view_of(label: Label, value: &Value) -> MessageView
    ensures { result ≡ spec.view_of label value.now }
{
    let empty = MessageView {
        label: u32::from(label.0),
        kind: 0,
        natural: 0,
        whole: 0,
        length: 0,
    };
    match value {
        Value::Unit => empty,
        Value::Flag(flag) => MessageView {
            kind: 1,
            natural: u64::from(*flag),
            ..empty
        },
        Value::Natural(natural) => MessageView {
            kind: 2,
            natural: *natural,
            ..empty
        },
        Value::Whole(whole) => MessageView {
            kind: 3,
            whole: *whole,
            ..empty
        },
        Value::Octets(octets) => MessageView {
            kind: 4,
            length: octets.as_slice().len(),
            ..empty
        },
        Value::Numbers(numbers) => MessageView {
            kind: 5,
            length: numbers.as_slice().len(),
            ..empty
        },
    }
}
