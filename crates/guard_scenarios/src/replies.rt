// Calls and the replies to them, the pending calls that a peer has room for, and addresses.
use crate::bench::Bench;
use crate::message::Message;
use std::io;

/// Only the callee may reply, only to the caller, and once.
pub fn second_reply(bench: &mut Bench<impl Print>) -> io::Result<()> {
    bench.start("second reply")?;
    bench.connect_peers(3)?;
    bench.call("call to :1.2", 1, 5, ":1.2")?;
    for (label, peer, reply_serial, to) in [
        ("return of another", 3, 5, ":1.1"),
        ("return of another serial", 2, 6, ":1.1"),
        ("return to another", 2, 5, ":1.3"),
        ("return to :1.4", 2, 5, ":1.4"),
        ("return", 2, 5, ":1.1"),
        ("second return", 2, 5, ":1.1"),
    ] {
        bench.method_return(label, peer, reply_serial, to)?;
    }
    Ok(())
}

/// One call more than a peer has room for.
pub fn seventeen_pending_calls(bench: &mut Bench<impl Print>) -> io::Result<()> {
    bench.start("17 pending calls")?;
    bench.connect_peers(2)?;
    bench.sixteen_calls()?;
    bench.call("the 17th", 1, 17, ":1.2")?;
    bench.call("the 5th again", 1, 5, ":1.2")?;
    let no_reply_expected = Message {
        flags: 1,
        ..Message::call(17, ":1.2")
    };
    bench.message("the 17th, no reply expected", 1, &no_reply_expected)?;
    bench.call_to_bus(1, 17)?;
    bench.method_return("return", 2, 5, ":1.1")?;
    bench.call("the 17th", 1, 17, ":1.2")
}

/// The callee goes in the middle of its reply, and another peer comes in its slot.
pub fn callee_goes(bench: &mut Bench<impl Print>) -> io::Result<()> {
    bench.start("the callee goes")?;
    bench.connect_peers(2)?;
    bench.sixteen_calls()?;
    bench.piece(
        "20 bytes",
        2,
        b"l\x02\0\x01\0\0\0\0\x01\0\0\0\x08\0\0\0\x05\x01u\0",
    )?;
    bench.disconnect(2)?;
    bench.method_return("return", 2, 5, ":1.1")?;
    bench.call("call to :1.2", 1, 5, ":1.2")?;
    bench.connect_peers(1)?;
    bench.method_return("return of the next in its slot", 3, 5, ":1.1")?;
    bench.call("call to :1.3", 1, 5, ":1.3")
}

/// A unique name with a zero in front is no peer's.
pub fn leading_zeros(bench: &mut Bench<impl Print>) -> io::Result<()> {
    bench.start("leading zeros")?;
    bench.connect_peers(7)?;
    bench.call("call to :1.07", 1, 1, ":1.07")?;
    bench.call("call to :1.0", 1, 1, ":1.0")?;
    bench.call("call to :1.7", 1, 1, ":1.7")?;
    bench.message("signal to :1.07", 1, &Message::signal(":1.07"))?;
    bench.method_return("return to :1.01", 7, 1, ":1.01")?;
    bench.method_return("return to :1.1", 7, 1, ":1.1")
}

/// A stream is closed at a byte that no message begins with.
pub fn closed_stream(bench: &mut Bench<impl Print>) -> io::Result<()> {
    let mut bytes = [0; 20];
    bytes[0] = b'L';
    bench.start("closed stream")?;
    bench.connect_peers(2)?;
    bench.piece("nothing", 1, &[])?;
    bench.piece("20 bytes of another order", 1, &bytes)?;
    bench.piece("the rest", 1, &bytes[16..])?;
    bench.piece("nothing", 1, &[])?;
    bench.call("call to :1.1", 2, 1, ":1.1")?;
    bench.signal_to_all(2)?;
    bench.own(1, "n.a")?;
    bench.disconnect(1)?;
    bench.disconnect(2)
}
