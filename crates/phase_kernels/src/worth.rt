//! What the cells of a phase take by strips.

use kernel_rows::CellKernel;

/// The most steps of strips, where each of these kernels has strips and there is one.
pub(crate) fn most_steps(kernels: &[Option<CellKernel>]) -> Option<usize> {
    let mut most = 0;
    for kernel in kernels {
        let steps = match kernel {
            Some(kernel) => kernel.size().steps,
            None => 0,
        };
        if steps == 0 {
            return None;
        }
        most = most.max(steps);
    }
    if most == 0 { None } else { Some(most) }
}
