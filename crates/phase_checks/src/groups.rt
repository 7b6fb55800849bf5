//! How many results the functions of a group have.

ghost use Rattle.std.specs.Prelude.{◌≡◌};
ghost use Rattle.phase_checks.specs.Walks.{results_in};

use counted_code::Code;

/// The number of results of the first instance of a group, which each of its instances has.
pub fn count_results(code: &Code, group: u32) -> usize
    ensures { result ≡ results_in code.now group }
{
    let Some(places) = code.groups.get(group as usize) else {
        return 0;
    };
    for place in places {
        if let Some(function) = code.functions.get(*place as usize) {
            return function.results.len();
        }
    }
    0
}
