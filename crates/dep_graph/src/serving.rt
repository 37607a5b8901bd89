// Filings that serve a node.
ghost use Rattle.std.specs.Prelude.{◌≡◌};
ghost use Rattle.dep_graph.specs.internal.Filings.{since};

// The filings that are to serve a node: those of its own from the first on that serve it already, and the last.
#[derive(Clone, Copy)]
pub(crate) struct Serving {
    pub(crate) first: usize,
    pub(crate) last: usize,
}

impl Serving {
    // The filings that serve from this one on.
    pub(crate) fn since(filing: usize) -> Serving
        ensures { result ≡ since filing }
    {
        Serving {
            first: filing,
            last: filing,
        }
    }
}
