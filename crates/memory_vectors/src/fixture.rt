// The memory that most cases change.
use crate::bench::Bench;
use crate::ticks;

// A call to `:1.2` with a head of 64 bytes and a body of 3: byte 8 begins its serial, 27 is the digit.
const CALL: [u8; 67] =
    *b"l\x01\0\x01\x03\0\0\0\x01\0\0\0*\0\0\0\x06\x01s\0\x04\0\0\0:1.2\0\0\0\0\x01\x01o\0\x01\0\0\0/\0\0\0\0\0\0\0\x03\x01s\0\x01\0\0\0M\0\0\0\0\0\0\0\0\0\0";

/// A call to the peer whose number is that digit.
pub fn call(serial: u8, digit: u8) -> [u8; 67] {
    let mut call = CALL;
    call[8] = serial;
    call[27] = digit;
    call
}

/// Peer 1 in slot 0 has two gids, two names, two pending calls (to peers 2 and 4, both of serial 1, of two ticks) and 20 bytes of a message. Peer 2 in
/// slot 1 has a name and a broken head, peer 4 in slot 3 all of a message but 2 bytes. Slot 2 and those from 4 on are free.
pub fn make(bench: &mut Bench<impl Print>) {
    bench.start();
    for gids in [[5, 6].as_slice(), &[], &[], &[]] {
        bench.connect(gids);
    }
    bench.disconnect(3);
    bench.own(1, "a.b");
    bench.own(1, "c.d");
    bench.set_tick(ticks::FIRST);
    bench.piece(1, &call(1, b'2'));
    bench.set_tick(ticks::LAST);
    bench.piece(1, &call(1, b'4'));
    bench.piece(1, &CALL[..20]);
    bench.own(2, "e.f");
    bench.piece(2, &[b'L'; 16]);
    bench.piece(4, &CALL[..65]);
}
