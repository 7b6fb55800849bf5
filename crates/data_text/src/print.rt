ghost use Rattle.std.specs.Prelude.{◌≡◌, ◌≤◌, ◌+ℤ◌, pos, map, fold, length, unsigned_abs};
ghost use Rattle.sac_base.specs.Arrays.{MOST};
ghost use Rattle.std.specs.Fmt.{decimal, signed_decimal};
ghost use Rattle.std.specs.List.{flat_map};
ghost use Rattle.data_text.specs.Numbers.{base_text, truth_text};
ghost use Rattle.data_text.specs.Printed.{Appends, array_line, form_text, commas, further_extent, element_text, spaced, line_text, summary_line};
ghost use Rattle.data_text.specs.Printed.{summary_text, total};

use itoa::Buffer;
use sac_base::{Array, Base, Cell, Memory};

// Appends a text.
fn push_text(into: &mut Vec<u8>, text: &[u8]) -> Result<(), Memory>
    ensures { Appends into.old.items into.new.items result text.now }
{
    into.extend_from_slice(text)?;
    Ok(())
}

fn push_base(into: &mut Vec<u8>, base: Base) -> Result<(), Memory>
    ensures { Appends into.old.items into.new.items result (base_text base) }
{
    match base {
        Base::Int => push_text(into, b"int"),
        Base::Bool => push_text(into, b"bool"),
    }
}

fn push_natural(into: &mut Vec<u8>, number: u64) -> Result<(), Memory>
    ensures { Appends into.old.items into.new.items result (decimal number) }
{
    let mut buffer = Buffer::new();
    push_text(into, buffer.format(number).as_bytes())
}

fn push_integer(into: &mut Vec<u8>, number: i64) -> Result<(), Memory>
    ensures { Appends into.old.items into.new.items result (signed_decimal number) }
{
    let mut buffer = Buffer::new();
    push_text(into, buffer.format(number).as_bytes())
}

fn push_element(into: &mut Vec<u8>, base: Base, cell: Cell) -> Result<(), Memory>
    ensures { Appends into.old.items into.new.items result (element_text base cell) }
{
    match base {
        Base::Int => push_integer(into, i64::from(cell)),
        Base::Bool if cell == 0 => push_text(into, b"false"),
        Base::Bool => push_text(into, b"true"),
    }
}

// Appends an extent behind a comma.
#[tactic(auto, using(crate::proofs::AppendFacts::then_appends))]
fn push_further(into: &mut Vec<u8>, extent: i32) -> Result<(), Memory>
    ensures { Appends into.old.items into.new.items result (further_extent extent) }
{
    push_text(into, b",")?;
    push_natural(into, u64::from(extent.unsigned_abs()))
}

fn push_rest(into: &mut Vec<u8>, extents: &[i32]) -> Result<(), Memory>
    ensures { Appends into.old.items into.new.items result (flat_map further_extent extents.now) }
{
    for extent in extents {
        push_further(into, *extent)?;
    }
    Ok(())
}

// Appends the extents with commas between them.
fn push_extents(into: &mut Vec<u8>, extents: &[i32]) -> Result<(), Memory>
    ensures { Appends into.old.items into.new.items result (commas (map unsigned_abs extents.now)) }
{
    if extents.is_empty() {
        return Ok(());
    }
    push_natural(into, u64::from(extents[0].unsigned_abs()))?;
    push_rest(into, extents.split_at(1).1)
}

// Appends an element behind a space.
#[tactic(auto, using(crate::proofs::AppendFacts::then_appends))]
fn push_spaced(into: &mut Vec<u8>, base: Base, cell: Cell) -> Result<(), Memory>
    ensures { Appends into.old.items into.new.items result (spaced base cell) }
{
    push_text(into, b" ")?;
    push_element(into, base, cell)
}

fn push_cells(into: &mut Vec<u8>, base: Base, cells: &[Cell]) -> Result<(), Memory>
    ensures { Appends into.old.items into.new.items result (flat_map (spaced base) cells.now) }
{
    for cell in cells {
        push_spaced(into, base, *cell)?;
    }
    Ok(())
}

// Appends the base and the extents in brackets.
fn push_form(into: &mut Vec<u8>, base: Base, extents: &[i32]) -> Result<(), Memory>
    ensures { Appends into.old.items into.new.items result (form_text base (map unsigned_abs extents.now)) }
{
    push_base(into, base)?;
    push_text(into, b"[")?;
    push_extents(into, extents)?;
    push_text(into, b"]")
}

fn push_line(into: &mut Vec<u8>, base: Base, extents: &[i32], cells: &[Cell]) -> Result<(), Memory>
    ensures { Appends into.old.items into.new.items result (line_text base (map unsigned_abs extents.now) cells.now) }
{
    push_form(into, base, extents)?;
    push_text(into, b":")?;
    push_cells(into, base, cells)?;
    push_text(into, b"\n")
}

/// Appends the line of an array: its base, its extents in brackets, `:`, each element behind a space, and a line feed.
///
/// # Errors
///
/// `Memory`: a part of the line from its front was appended.
pub fn print_array(array: &Array, into: &mut Vec<u8>) -> Result<(), Memory>
    ensures { Appends into.old.items into.new.items result (array_line array.now) }
{
    push_line(into, array.base(), array.shape().extents(), array.cells())
}

// The sum of numbers, or how many of them are true.
fn total_of(base: Base, cells: &[Cell]) -> i64
    requires { length cells.now ≤ MOST }
    ensures { result ≡ total base cells.now }
{
    match base {
        Base::Int => sum(cells),
        Base::Bool => cells.iter().filter(|cell| **cell != 0).count() as i64,
    }
}

fn sum(cells: &[Cell]) -> i64
    requires { length cells.now ≤ MOST }
    ensures { result ≡ fold ◌+ℤ◌ (pos 0) cells.now }
{
    let mut sum: i64 = 0;
    for cell in cells {
        sum += i64::from(*cell);
    }
    sum
}

fn push_total(into: &mut Vec<u8>, base: Base, cells: &[Cell]) -> Result<(), Memory>
    requires { length cells.now ≤ MOST }
    ensures { Appends into.old.items into.new.items result (signed_decimal (total base cells.now)) }
{
    push_integer(into, total_of(base, cells))
}

fn push_summary(
    into: &mut Vec<u8>,
    base: Base,
    extents: &[i32],
    cells: &[Cell],
) -> Result<(), Memory>
    requires { length cells.now ≤ MOST }
    ensures { Appends into.old.items into.new.items result (summary_text base (map unsigned_abs extents.now) cells.now) }
{
    push_form(into, base, extents)?;
    push_text(into, b": elements ")?;
    push_natural(into, cells.len() as u64)?;
    push_text(into, b" sum ")?;
    push_total(into, base, cells)?;
    push_text(into, b"\n")
}

/// Appends the summary of an array: its base, its extents in brackets, `: elements `, the number of its elements,
/// ` sum `, their sum as whole numbers or the number of true ones, and a line feed.
///
/// # Errors
///
/// `Memory`: a part of the line from its front was appended.
pub fn print_summary(array: &Array, into: &mut Vec<u8>) -> Result<(), Memory>
    ensures { Appends into.old.items into.new.items result (summary_line array.now) }
{
    push_summary(into, array.base(), array.shape().extents(), array.cells())
}
