/// Why a certificate is not valid, at the first line of a fault: it is no text; its numbers of patterns and
/// rows are not the model's; its choice is not legal; its values are not the choice's measures; two patterns
/// of a cut do not clash; a row of a leaf is not there; a multiplier is negative on an "at most" row; a
/// pattern is none of the model's; the pattern of a branch is not free; a free pattern has a positive reduced
/// cost; the bound of a leaf is not below the value.
#[derive(Clone, Copy, PartialEq, Eq)]
pub enum Reason {
    Text,
    Model,
    Choice,
    Values,
    Cut { first: u32, second: u32 },
    Row,
    Sign,
    Pattern { pattern: u32 },
    NotFree { pattern: u32 },
    Cost { pattern: u32 },
    Bound,
}

/// What `check` says of a certificate: it proves so many levels of these values, or the first line that is
/// at fault, and why.
#[derive(Clone, Copy, PartialEq, Eq)]
pub enum Verdict {
    Verified { levels: u32, values: [i64; 6] },
    Not { line: u64, reason: Reason },
}

/// The line of a fault, and the reason.
#[derive(Clone, Copy)]
pub struct Found {
    pub line: u64,
    pub reason: Reason,
}
