//! The documents of the demos, and what they make of a value that the program never hands them. `.ci/demos` runs them on data.

ghost use Rattle.std.specs.Prelude.{◌≡◌, true};
ghost use Rattle.rs_demos.specs.Sessions.{has_session};

use rs_core::Actor;
use rs_demos::{demo_actors, demo_document, demo_output};
use rs_model::{Demo, NoMemory, Value};
use std::alloc::Global;

fn has_text(alloc: Global, kind: Demo, count: u8, wanted: &str) -> bool
    requires { has_session kind count ≡ true }
{
    match demo_document(alloc, kind, count) {
        Ok(text) => text.as_slice() == wanted.as_bytes(),
        Err(_) => false,
    }
}

#[test]
fn documents_are_the_stated_ones(rt: HostRuntime) {
    let double =
        "roles K, S, T\nprotocol rec X0. K->S:ready(). T->K:ready(). S->K{copy(bytes). K->T:copy(bytes). X0, stop(). K->S:ready(). K->T:stop(). end}\nmachine K: S!ready(). rec X1. S!ready(). T?ready(). S?{copy(bytes). T!copy(bytes). X1, stop(). T!stop(). end}\n";
    assert!(rt; has_text(rt.alloc(), Demo::Double, 0, double));
    let stream =
        "roles S, T\nprotocol rec X0. T->S:ready(). S->T{value(bytes). X0, stop(). end}\nmachine S: T!value(bytes). rec X1. T?ready(). T!{value(bytes). X1, stop(). T?ready(). end}\n";
    assert!(rt; has_text(rt.alloc(), Demo::Stream, 0, stream));
    let ring =
        "roles R0, R1, R2\nprotocol R0->R1:v(int). R1->R2:v(int). R2->R0:v(int). R0->R1:v(int). R1->R2:v(int). R2->R0:v(int). end\nmachine R1: R2!v(int). R0?v(int). R2!v(int). R0?v(int). end\nmachine R2: R0!v(int). R1?v(int). R0!v(int). R1?v(int). end\n";
    assert!(rt; has_text(rt.alloc(), Demo::Ring, 3, ring));
    let butterfly =
        "roles R0, R1, R2, R3\nprotocol R0->R1:v(int). R1->R0:v(int). R2->R3:v(int). R3->R2:v(int). R0->R2:v(int). R2->R0:v(int). R1->R3:v(int). R3->R1:v(int). end\nmachine R1: R0!v(int). R0?v(int). R3!v(int). R3?v(int). end\nmachine R2: R3!v(int). R3?v(int). R0!v(int). R0?v(int). end\nmachine R3: R2!v(int). R2?v(int). R1!v(int). R1?v(int). end\n";
    assert!(rt; has_text(rt.alloc(), Demo::Butterfly, 4, butterfly));
}

/// Whether a demo of two numbers prints this, if its first role was given this natural number.
fn is_printed_behind(alloc: Global, kind: Demo, bytes: &[u8], number: u64, wanted: &[u8]) -> bool {
    let Ok(mut actors) = demo_actors(alloc, kind, bytes) else {
        return false;
    };
    let Some(first) = actors.first_mut() else {
        return false;
    };
    if first.take(alloc, &[], 0, &Value::Natural(number)).is_err() {
        return false;
    }
    match demo_output(alloc, kind, actors.as_slice()) {
        Ok(text) => text.as_slice() == wanted,
        Err(NoMemory) => false,
    }
}

#[test]
fn a_nat_is_taken_as_its_number(rt: HostRuntime) {
    let alloc = rt.alloc();
    assert!(rt; is_printed_behind(alloc, Demo::Ring, b"-1 2", 5, b"4 2\n"));
    assert!(rt; is_printed_behind(alloc, Demo::Butterfly, b"-1 2", 5, b"4 2\n"));
    assert!(rt;
        is_printed_behind(
            alloc,
            Demo::Ring,
            b"-1 2",
            9_223_372_036_854_775_807,
            b"9223372036854775806 2\n"
        )
    );
    assert!(rt;
        is_printed_behind(
            alloc,
            Demo::Ring,
            b"-1 2",
            9_223_372_036_854_775_808,
            b"-1 2\n"
        )
    );
}
