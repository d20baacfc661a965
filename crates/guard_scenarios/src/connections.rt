// Peers that connect, own names and go.
use crate::bench::Bench;
use std::io;

/// One peer more than there are slots.
pub fn seventeen_peers(bench: &mut Bench<impl Print>) -> io::Result<()> {
    bench.start("17 peers")?;
    bench.connect_peers(17)?;
    bench.signal_to_all(16)?;
    bench.disconnect(5)?;
    bench.signal_to_all(16)?;
    bench.connect_peers(2)?;
    bench.disconnect(5)?;
    bench.disconnect(18)
}

/// One name more than a peer has room for.
pub fn five_names(bench: &mut Bench<impl Print>) -> io::Result<()> {
    bench.start("5 names")?;
    bench.connect_peers(2)?;
    for (peer, name) in [
        (1, "n.a"),
        (1, "n.b"),
        (1, "n.c"),
        (1, "n.d"),
        (1, "n.e"),
        (1, "n.a"),
        (2, "n.a"),
        (2, "org.freedesktop.DBus"),
        (2, ":1.2"),
        (3, "n.f"),
    ] {
        bench.own(peer, name)?;
    }
    for (peer, name) in [(2, "n.a"), (1, "n"), (1, "n.b")] {
        bench.release(peer, name)?;
    }
    bench.own(1, "n.e")?;
    bench.own(2, "n.b")
}

/// One gid more than a peer has room for.
pub fn seventeen_gids(bench: &mut Bench<impl Print>) -> io::Result<()> {
    bench.start("17 gids")?;
    bench.connect(1, &[7; 17])?;
    bench.connect(1, &[7; 16])
}
