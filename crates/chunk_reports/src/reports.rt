// Reports of chunks.
ghost use Rattle.std.specs.Prelude.{◌≡◌, length, map};
ghost use Rattle.std.specs.List.Sorted.{IsPermutation};
ghost use Rattle.chunk_reports.specs.Orders.{counting, EachOnce};
ghost use Rattle.chunk_reports.specs.Stops.{first_stop_of};

use sac_base::Stop;

/// What a worker tells of a chunk that it drew: its part, and what its cells came to.
#[derive(Drop)]
pub struct Report<T> {
    pub chunk: u64,
    pub part: T,
    pub end: Result<bool, Stop>,
}

/// Puts reports into the order of their chunks, of which each is there once. Nothing is allocated.
pub fn put_in_order<T: Drop>(reports: &mut Vec<Report<T>>)
    requires once { EachOnce (length reports.old.items) (map (λ r. r.chunk) reports.old.items) }
    ensures order { map (λ r. r.chunk) reports.new.items ≡ counting 0 (length reports.old.items) }
    ensures same { IsPermutation reports.old.items reports.new.items }
{
    reports.sort_unstable_by_key(
        |r: &Report<T>| -> u64
            ensures { result ≡ r.now.chunk }
        { r.chunk },
    );
}

/// What the first chunk that stopped came to, where the reports are in the order of the chunks.
pub fn first_stop<T>(reports: &[Report<T>]) -> Result<(), Stop>
    ensures { result ≡ first_stop_of reports.now }
{
    for report in reports {
        if let Err(stop) = report.end {
            return Err(stop);
        }
    }
    Ok(())
}
