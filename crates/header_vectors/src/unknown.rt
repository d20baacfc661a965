// Unknown fields (rule 2.13) behind those of call C: the rules of their variants, each with its limits.
mod limits;
mod signatures;
mod values;

use crate::drafts::Draft;
use std::alloc::{AllocError, Global};
use std::io;
use wire::Order;

// A part of the fields as they are written.
#[derive(Clone, Copy)]
enum Part {
    // A field of this code up to its value, which is of this type.
    Field(u8, &'static str),
    // A number in the head's byte order.
    Number(u32),
    Bytes(&'static [u8]),
    // The same bytes so many times.
    Repeat(&'static [u8], usize),
    Zeros(usize),
    // So many arrays in one another, and so many bytes in the innermost.
    Arrays(u16, u16),
    // Another byte at this place of call C.
    Instead(usize, u8),
}

// What a line says, and what is written behind call C.
type Case = (&'static str, &'static [Part]);

impl Part {
    fn write(self, head: &mut Draft) -> Result<(), AllocError> {
        match self {
            Part::Field(code, signature) => head.push_field(code, signature),
            Part::Number(number) => head.push_number(number),
            Part::Bytes(bytes) => head.push(bytes),
            Part::Repeat(bytes, times) => head.repeat(bytes, times),
            Part::Zeros(count) => head.repeat(b"\0", count),
            Part::Arrays(levels, inside) => head.push_arrays(levels, inside),
            Part::Instead(at, byte) => {
                head.set(at, byte);
                Ok(())
            }
        }
    }
}

// Call C with these fields behind its own.
fn call_with(alloc: Global, order: Order, parts: &[Part]) -> Result<Draft, AllocError> {
    let mut call = Draft::of_call(alloc, order)?;
    for part in parts {
        part.write(&mut call)?;
    }
    call.end_array()?;
    Ok(call)
}

fn run_all(rt: &(impl Print + AllocGlobal), order: Order, cases: &[Case]) -> io::Result<()> {
    for (what, parts) in cases {
        let call = call_with(rt.alloc(), order, parts)?;
        println!(rt; "field {what}: {}", crate::answer(call.bytes()))?;
    }
    Ok(())
}

pub fn run(rt: &(impl Print + AllocGlobal), order: Order) -> io::Result<()> {
    run_all(rt, order, &signatures::CODES)?;
    run_all(rt, order, &signatures::SIGNATURES)?;
    run_all(rt, order, &values::NUMBERS)?;
    run_all(rt, order, &values::TEXTS)?;
    run_all(rt, order, &values::ARRAYS)?;
    run_all(rt, order, &limits::FAULTS)?;
    run_all(rt, order, &limits::LIMITS)
}
