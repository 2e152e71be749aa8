// The commands that a line can write.
#[derive(Clone, Copy, Debug, PartialEq, Eq)]
pub enum Command {
    Line {
        accept_intercept: u64,
        reject_intercept: u64,
        slope: u64,
        cut_size: u32,
        cut_number: u32,
    },
    Single {
        last_size: u32,
        number: u32,
    },
    Cut {
        size: u32,
        number: u32,
    },
    Open {
        bay: u32,
    },
    Read {
        bay: u32,
    },
    Clear {
        bay: u32,
    },
    Take {
        bay: u32,
        count: u32,
    },
}
