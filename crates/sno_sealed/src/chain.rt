//! How far a chain of sums has come.

/// What is known of the lines so far.
#[derive(Clone, Copy)]
pub(crate) struct Chain {
    /// The sum of the last line.
    pub(crate) sum: u64,
    /// How many lines there are.
    pub(crate) lines: u64,
    /// How many of them, the first ones, have no sum.
    pub(crate) plain: u64,
}

impl Chain {
    ghost use Rattle.std.specs.Prelude.{◌≡◌};
    ghost use Rattle.sno_sealed.specs.Chains.{start};

    /// Before the first line.
    pub(crate) fn start() -> Chain
        ensures { result ≡ start }
    {
        Chain {
            sum: 0,
            lines: 0,
            plain: 0,
        }
    }
}
