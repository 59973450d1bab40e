// The limits of each message's fields.
ghost use Rattle.std.specs.Prelude.{◌≡◌};
ghost use Rattle.message.specs.Frames.{block_number, report_limits, start_limits, data_limits, written_limits, block_limits};

use row::Limit;

const IDENTIFIER: Limit = Limit {
    least: 0,
    most: 1_999_999_999,
};

const WRITE: Limit = Limit {
    least: 1,
    most: 999_999_999,
};

const FLAG: Limit = Limit { least: 0, most: 1 };

const WORD: Limit = Limit { least: 0, most: 3 };

// Below the number of blocks: no number at all where that is 0.
fn block_number(blocks: usize) -> Limit
    ensures { result ≡ block_number blocks }
{
    let blocks = blocks as u64;
    Limit {
        least: 1u64.saturating_sub(blocks),
        most: blocks.saturating_sub(1),
    }
}

pub fn report_limits(blocks: usize) -> [Limit; 9]
    ensures { result ≡ report_limits blocks }
{
    let bits = Limit {
        least: 0,
        most: blocks as u64,
    };
    [
        IDENTIFIER, IDENTIFIER, IDENTIFIER, IDENTIFIER, FLAG, FLAG, FLAG, bits, WORD,
    ]
}

pub fn start_limits() -> [Limit; 3]
    ensures { result ≡ start_limits }
{
    [IDENTIFIER, IDENTIFIER, IDENTIFIER]
}

pub fn data_limits(blocks: usize) -> [Limit; 2]
    ensures { result ≡ data_limits blocks }
{
    [WRITE, block_number(blocks)]
}

pub fn written_limits() -> [Limit; 1]
    ensures { result ≡ written_limits }
{
    [WRITE]
}

pub fn block_limits(blocks: usize) -> [Limit; 1]
    ensures { result ≡ block_limits blocks }
{
    [block_number(blocks)]
}
