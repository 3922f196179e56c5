//! Why a viewer sees nothing, and why an entry is not published.
use thiserror::Error;

/// Why a viewer sees nothing.
#[derive(Clone, Copy, Debug, PartialEq, Eq, Error)]
pub enum ViewFault {
    /// The screen has ended.
    #[error("the screen has ended")]
    Ended,
    /// The screen shows less than the viewer has seen. No legal run meets this.
    #[error("the screen shows less than was seen")]
    Older,
    /// Out of memory.
    #[error("out of memory")]
    Memory,
}

/// Why an entry is not published. Readers see what they saw.
#[derive(Clone, Copy, Debug, PartialEq, Eq, Error)]
pub enum PublishFault {
    /// Out of memory. The screen can be used as before.
    #[error("out of memory")]
    Memory,
    /// The publish itself was refused. Or the history had gone on without the screen, which no legal run meets. Nothing
    /// more can be published.
    #[error("nothing more can be published")]
    Stopped,
}
