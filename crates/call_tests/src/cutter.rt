ghost use Rattle.std.specs.Prelude.{◌≡◌};
ghost use Rattle.buffer_parts.specs.Spans.{KeepsPlace, KeepPlaces};

use buffer_parts::Part;
use index_cutter::{Cuts, cut, lend};

/// Positions in so many chunks of a size.
fn cuts(positions: u64, size: u64, count: u64) -> Cuts
    ensures { result ≡ record { positions = positions; size = size; count = count } }
{
    Cuts {
        positions,
        size,
        count,
    }
}

#[test]
fn positions_are_cut(rt: HostRuntime) {
    let found = [
        cut(10, 4, None),
        cut(10, 4, Some(4)),
        cut(0, 4, None),
        cut(16_777_216, 4, Some(1)),
    ];
    let wanted = [
        cuts(10, 3, 4),
        cuts(10, 4, 3),
        cuts(0, 1, 0),
        cuts(16_777_216, 4096, 4096),
    ];
    assert_eq!(rt; found, wanted);
}

fn with_first_written(part: Part<i32>) -> Part<i32>
    ensures { KeepsPlace part result }
{
    let mut writer = part.into_writer();
    if writer.len() > 0 {
        writer.set(0, 9);
    }
    writer.into_part()
}

/// The lengths of the parts, a decimal digit each.
fn lengths(parts: &[Part<i32>]) -> usize {
    let mut digits = 0usize;
    for part in parts {
        digits = digits.wrapping_mul(10).wrapping_add(part.len());
    }
    digits
}

/// Notes the lengths of the parts, and writes the first cell of the last one.
fn write_last(parts: Vec<Part<i32>>, _seen: usize) -> (Vec<Part<i32>>, usize)
    ensures { KeepPlaces parts.items result.0.items }
{
    let mut parts = parts;
    let seen = lengths(&parts);
    if let Some(last) = parts.pop() {
        parts.push_reserved(with_first_written(last));
    }
    (parts, seen)
}

#[test]
fn a_buffer_is_lent_in_chunks(rt: HostRuntime) {
    let mut buffer = [0; 10];
    let mut seen = 0;
    let lent = lend(
        rt.alloc(),
        &mut buffer,
        &cuts(10, 3, 4),
        1,
        &mut seen,
        write_last,
    );
    assert!(rt; lent.is_ok() && buffer == [0, 0, 0, 0, 0, 0, 0, 0, 0, 9] && seen == 3331);
}
