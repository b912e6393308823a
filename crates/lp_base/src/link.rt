// What sends and receives on one object.
ghost use Rattle.std.specs.Prelude.{◌≡◌};
ghost use Rattle.lp_base.specs.LinkState.{sink_of, source_of};

use crate::outside::{Sink, Source};

/// A source and a sink on one object: neither a read nor a write changes what is known of the other side.
pub trait Link: Source + Sink {
    // the state that its reads leave is that of its own sink
    ghost reads_beside: { (link : Self) →
        Self.beside_reads link ≡ sink_of (Self.taken link) (Self.write_faults link) };

    // and the state that its writes leave is that of its own source
    ghost writes_beside: { (link : Self) →
        Self.beside_writes link ≡ source_of (Self.left link) (Self.read_faults link) };
}
