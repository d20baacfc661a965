// Calls that the image denies, calls on an image that is not good, and calls of no peer.
use crate::bench::{ALLOW, Bench};
use std::io;

/// Whose default verdict an image has, and where it stands.
#[derive(Clone, Copy)]
enum Verdict {
    Connect = 33,
    Own = 41,
    Send = 57,
    Receive = 97,
}

impl<'a, R: Print> Bench<'a, R> {
    /// All but one verdict are an allow from now on.
    fn deny(&mut self, verdict: Verdict) -> io::Result<()> {
        let mut image = ALLOW;
        image[verdict as usize] = 0;
        self.set_image(&image)
    }
}

pub fn denied(bench: &mut Bench<impl Print>) -> io::Result<()> {
    bench.start("denied, bad images, no such peer")?;
    bench.connect_peers(2)?;
    bench.deny(Verdict::Connect)?;
    bench.connect(1, &[])?;
    bench.deny(Verdict::Own)?;
    bench.own(1, "n.a")?;
    for (verdict, label) in [
        (Verdict::Send, "call to :1.2, send denied"),
        (Verdict::Receive, "call to :1.2, receive denied"),
    ] {
        bench.deny(verdict)?;
        bench.call(label, 1, 1, ":1.2")?;
        bench.call_to_bus(1, 1)?;
        bench.signal_to_all(1)?;
    }
    bench.set_image(&ALLOW)?;
    bench.signal_to_all(1)?;
    bad_image(bench)?;
    bench.set_image(&ALLOW)?;
    bench.signal_to_all(3)
}

/// An image of one byte less.
fn bad_image(bench: &mut Bench<impl Print>) -> io::Result<()> {
    bench.set_image(&ALLOW[..135])?;
    bench.connect(1, &[])?;
    bench.own(1, "n.a")?;
    bench.signal_to_all(1)
}
