use crate::streams::words;
use hn_io::{MemSink, MemSource};
use hn_node::ServeEnd;
use hn_run::{DONE, REFUSED, WIRE_FAILED, run};
use hn_wire::{MemClock, MemWire};
use std::alloc::{AllocError, Global};
use std::test::Fail;

/// What three turns of node 1 came to.
#[derive(Drop)]
struct Ran {
    /// The status.
    status: u8,
    /// The text.
    sink: MemSink,
    /// How the turns ended, and how many datagrams were sent, if a router was served.
    served: Option<(ServeEnd, u64)>,
    /// Whether a datagram waits for the peer.
    waits: bool,
}

/// Three turns of node 1 at port 9000, with a peer at 9002, over a wire of which these calls fail.
fn three_turns(alloc: Global, file: &str, fails: Vec<u64>) -> Result<Ran, AllocError> {
    let words = words(alloc, "hncp node 00000001 9000 3 0 9002")?;
    let mut source = MemSource::new(file.as_bytes().to_vec(alloc)?, Vec::new(alloc));
    let mut sink = MemSink::new(alloc, Vec::new(alloc));
    let mut wire = MemWire::new(alloc, fails);
    let mut clock = MemClock::new(vec![in alloc; 0, 0, 200, 399]?);
    let outcome = run(alloc, &words, &mut source, &mut sink, &mut wire, &mut clock);
    let served = outcome.served.map(|served| (served.end, served.sent));
    Ok(Ran {
        status: outcome.status,
        sink,
        served,
        waits: wire.waits(9003, 0).is_some(),
    })
}

#[test]
fn a_node_alone(rt: HostRuntime) -> Result<(), Fail> {
    let ran = three_turns(rt.alloc(), "hncp 1\n", Vec::new(rt.alloc()))?;
    let text = b"node id=00000001 number=1 reach=1 taken=0 sent=1\n".as_slice();
    assert!(rt; ran.status == DONE && ran.sink.held() == text);
    assert!(rt; ran.served == Some((ServeEnd::Turns, 1)));
    assert!(rt; ran.waits);
    Ok(())
}

/// Of each call of the wire that fails, how many datagrams were sent. The fifth call is the one that sends.
const SENT: [u64; 7] = [0, 0, 0, 0, 0, 1, 1];

#[test]
fn each_call_of_the_wire_fails(rt: HostRuntime) -> Result<(), Fail> {
    let alloc = rt.alloc();
    for (place, sent) in SENT.iter().enumerate() {
        let ran = three_turns(alloc, "hncp 1\n", vec![in alloc; place as u64 + 1]?)?;
        assert!(rt;
            ran.status == WIRE_FAILED && ran.sink.held().is_empty(),
            "{place}"
        );
        assert!(rt; ran.served == Some((ServeEnd::WireFault, *sent)), "{place}");
    }
    Ok(())
}

/// Nine delegated prefixes.
const NINE: &str =
    "hncp 1\nexternal 2001:db8:100::/56 7200 3600\nexternal 2001:db8:200::/56 7200 3600\n\
    external 2001:db8:300::/56 7200 3600\nexternal 2001:db8:400::/56 7200 3600\n\
    external 2001:db8:500::/56 7200 3600\nexternal 2001:db8:600::/56 7200 3600\n\
    external 2001:db8:700::/56 7200 3600\nexternal 2001:db8:800::/56 7200 3600\n\
    external 2001:db8:900::/56 7200 3600\n";

#[test]
fn files_that_are_refused(rt: HostRuntime) -> Result<(), Fail> {
    let alloc = rt.alloc();
    for (file, line) in [
        ("hncp 1\nrouter A 00000001\n", "refused 2 2\n"),
        (NINE, "refused 10 9\n"),
    ] {
        let ran = three_turns(alloc, file, Vec::new(alloc))?;
        assert!(rt;
            ran.status == REFUSED && ran.sink.held() == line.as_bytes(),
            "{line}"
        );
        assert!(rt; ran.served.is_none() && !ran.waits);
    }
    Ok(())
}
