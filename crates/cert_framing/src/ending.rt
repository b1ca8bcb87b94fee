//! How a stream ends after its last item.

/// How a stream ends after its last item. Positions count octets of the stream from 0.
#[derive(Clone, Copy, Debug, PartialEq, Eq, Hash)]
pub enum End {
    /// Nothing is left after the last item.
    Clean,
    /// The stream was cut off: the octets from this position on begin an item that they don't end.
    Cut(usize),
    /// The octets from this position on neither are nor begin an item.
    Fault(usize),
}
